// The layout of a table: records, a vote in each.
ghost use Rattle.std.specs.Prelude.{length, refl, slice_set};
ghost use Rattle.posts.specs.declared.fault.Layer.TheVariants.{Table as table_layer};

use crate::fault::Layer;
use crate::memory::Layout;
use std::marker::PhantomData;
use values::value::Value;
use votes::vote::Vote;

// Only a type: nobody makes one.
pub struct Table<V> {
    kind: PhantomData<V>,
}

impl<V: Value> Layout for Table<V> {
    type Item = Vote<V>;

    type Value = V;

    ghost layer = { table_layer };

    ghost votes = { λ records. records };

    ghost places = { λ records. length records };

    ghost long = { λ records. refl };

    ghost put = { λ place vote records. slice_set records place vote };

    fn layer() -> Layer {
        Layer::Table
    }

    fn places(records: &[Vote<V>]) -> usize {
        records.len()
    }

    fn get(records: &[Vote<V>], place: usize) -> Option<Vote<V>> {
        records.get(place).copied()
    }

    // By a test, as for frames.
    fn put(records: &mut [Vote<V>], place: usize, vote: &Vote<V>) {
        if place < records.len() {
            records[place] = *vote;
        }
    }
}

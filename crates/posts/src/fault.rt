// A fault of a post: the place that it refused, and the layer that refused it.
ghost use Rattle.std.specs.Prelude.{Some as some};
ghost use Rattle.posts.specs.Faults.{layer_name, fault_text};

use std::error::Error;
use std::fmt;

#[derive(Clone, Copy, Debug, PartialEq, Eq)]
pub enum Layer {
    Table,
    Frame,
}

impl fmt::Display for Layer {
    ghost output = { λ layer. some (layer_name layer) };

    fn fmt<W: fmt::Write>(&self, f: &mut fmt::Formatter<W>) -> fmt::Result {
        f.write_str(match self {
            Layer::Table => "table",
            Layer::Frame => "frame",
        })
    }
}

// The place is the count for a vote that was not sent, and the place asked for one that was not fetched.
#[derive(Clone, Copy, Debug, PartialEq, Eq)]
pub struct Fault {
    pub layer: Layer,
    pub place: usize,
}

impl fmt::Display for Fault {
    ghost output = { λ f. some (fault_text f) };

    fn fmt<W: fmt::Write>(&self, f: &mut fmt::Formatter<W>) -> fmt::Result {
        let layer = self.layer;
        let place = self.place;
        write!(f, "{layer} {place}")
    }
}

impl Error for Fault {}

// The votes of any post, one after another.
ghost use Rattle.std.specs.Prelude.{◌≡◌};
ghost use Rattle.std.specs.Iterator.{YieldsFirst, item_count};
ghost use Rattle.posts.specs.Posts.{votes_left};

use crate::post::Post;
use votes::vote::Vote;

// The votes that stand from a place on.
#[derive(Drop)]
pub struct Votes<'a, P> {
    post: &'a P,
    place: usize,
}

impl<'a, P: Post> Votes<'a, P> {
    // All the votes of a post are still to come.
    pub fn of(post: &'a P) -> Votes<'a, P>
        ensures { votes_left P.votes result ≡ P.votes post.now }
    {
        Votes { post, place: 0 }
    }
}

impl<'a, P: Post> Iterator for Votes<'a, P> {
    type Item = Vote<P::Value>;

    ghost next_gives = { YieldsFirst (votes_left P.votes) };

    ghost remaining = { item_count (votes_left P.votes) };

    #[tactic(auto, using(std::proofs::lemmas::Option::slice_get_cases, std::proofs::lemmas::List::drop_more, std::proofs::lemmas::List::drop_all), unfolding(crate::specs::Posts::fetched))]
    fn next(&mut self) -> Option<Vote<P::Value>> {
        let vote = self.post.fetch(self.place).ok()?;
        self.place += 1;
        Some(vote)
    }
}

// Internal, for the build.
// The place of a reader in a record list: which items stand before it (specs/), their laws (proofs/), and what records stand under:
// a repeat tree with its id, or any other tree.
#![tactic(auto)]

ghost use Rattle.std.specs.Prelude.{◌≡◌};
ghost use Rattle.tree.specs.Items.{same, repeats};

// What the children of a record of this id stand under.
#[tactic(auto, unfolding(tree::specs::Items::repeats))]
pub fn in_repeat(first_repeat: u32, id: u32) -> Option<u32>
    ensures { result ≡ repeats first_repeat id }
{
    if first_repeat <= id { Some(id) } else { None }
}

// Is this the id of the repeat tree that records stand under?
#[tactic(auto, unfolding(tree::specs::Items::same))]
pub fn is_own(own: Option<u32>, id: u32) -> bool
    ensures { result ≡ same own id }
{
    own == Some(id)
}

// The trees that wait: each has a frame in the work slice, which goes whole, as in `store`: nodes and staged words are written behind them.
ghost use Rattle.std.specs.Prelude.{◌≡◌, [], ◌∷◌, ◌+◌, ◌≤◌, length};
ghost use Rattle.words.specs.Words.{put};
ghost use Rattle.take.specs.Going.{frame_at, frame_width};

use crate::{Frame, Node};

// How many words a frame has.
pub const FRAME_WIDTH: usize = 11;

// A frame's words from an index on.
pub fn push_frame(
    work: &mut [u32],
    at: usize,
    tree: Node,
    g: gathering::Gathering,
    memo: scan::Memo,
)
    requires { at + frame_width ≤ length work.old }
    ensures { work.new ≡ put work.old at (tree.id ∷ tree.start ∷ tree.end ∷ tree.floor ∷ g.groups ∷ g.loose ∷ g.edge ∷ memo.place ∷ memo.start ∷ memo.mark ∷ memo.edge ∷ []) }
{
    words::put(
        work,
        at,
        [
            tree.id, tree.start, tree.end, tree.floor, g.groups, g.loose, g.edge, memo.place,
            memo.start, memo.mark, memo.edge,
        ],
    );
}

// The frame that stands from an index on.
pub fn pop_frame(work: &[u32], at: usize) -> Frame
    requires { at + frame_width ≤ length work.now }
    ensures { result ≡ frame_at work.now at }
{
    Frame {
        tree: Node {
            id: work[at],
            start: work[at + 1],
            end: work[at + 2],
            floor: work[at + 3],
        },
        groups: work[at + 4],
        loose: work[at + 5],
        edge: work[at + 6],
        memo: scan::Memo {
            place: work[at + 7],
            start: work[at + 8],
            mark: work[at + 9],
            edge: work[at + 10],
        },
    }
}

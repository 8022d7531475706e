// Sections in the hands of gangs. 02, card 4: "Track gangs need a section for an hour."
ghost use Rattle.std.specs.Prelude.{◌≡◌, ◌≤◌, ◌<◌};
ghost use Rattle.rules.specs.State.{possessed_of, possessed, with_possession};

use line::SectionNo;
use rules::State;

// Whether a gang has section `i`.
pub fn possessed(state: State, i: SectionNo) -> bool
    requires { state.posts ≤ 8 }
    ensures { result ≡ possessed state i.0 }
{
    possessed_of(state.possessions, state.posts, i)
}

// The same on a line of so many posts. Places for sections that are not on it are not read.
pub fn possessed_of(possessions: [bool; 7], posts: u8, i: SectionNo) -> bool
    requires { posts ≤ 8 }
    ensures { result ≡ possessed_of possessions posts i.0 }
{
    let k = i.0 as usize;
    k + 1 < posts as usize && possessions[k]
}

// Section `i` in a gang's hands or not, and so many local runs given.
pub fn with_possession(state: State, i: SectionNo, held: bool, given: u8) -> State
    requires { i.0 < 7 }
    ensures { result ≡ with_possession state i.0 held given }
{
    let mut next = State { given, ..state };
    next.possessions[i.0 as usize] = held;
    next
}

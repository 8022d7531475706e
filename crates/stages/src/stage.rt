// What a stage of the reading answers: how many posts, track counts, positions, trains or routes it
// read or the siding byte, or else the number of the check that it stopped at, as the definitions
// `posts_stage` and the others give it. An enum of its own and no `Result`: a rule of the project. Who
// calls a stage takes it apart by `let .. else`, and refuses early.
#[derive(Clone, Copy)]
pub enum Stage {
    Passed(u8),
    Stopped(u8),
}

/// Which kinds of lines are allowed.
#[derive(Clone, Copy, Debug, PartialEq, Eq)]
pub enum Dialect {
    /// Those of a script: requests, ticks and changes of the number of shards.
    Script,
    /// Those of a record of what a server admitted: also forms, nonces and notes of answers.
    Recorded,
}

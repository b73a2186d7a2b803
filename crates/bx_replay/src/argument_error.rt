use bx_advice::Limit;
use std::fmt::{self, Display, Formatter, Write};

/// The first wrong argument, or a wrong number of them.
#[derive(Clone, Copy, Debug, PartialEq, Eq)]
pub enum ArgumentError {
    /// Fewer than five or more than seven positional arguments.
    Count,
    Shards,
    Workers,
    /// How long a connect is held is not a number of milliseconds below 2^32.
    Timeout,
    /// How long clients wait between connects is not a number of milliseconds below 2^32.
    Interval,
    /// How long a message keeps its session alive is not a number of milliseconds below 2^32.
    MaxInterval,
    /// Not `-`, `r`, `a` or `ra`.
    Options,
    Limit(Limit),
}

impl Display for ArgumentError {
    fn fmt<W: Write>(&self, f: &mut Formatter<W>) -> fmt::Result {
        f.write_str(match self {
            ArgumentError::Count =>
                "expected 5 to 7 arguments, after optional --bytes, --sessions and --patterns",
            ArgumentError::Shards => "shards: expected a number from 1 to 64",
            ArgumentError::Workers => "workers: expected a number from 1 to 16",
            ArgumentError::Timeout => "timeout: expected a number from 0 to 4294967295",
            ArgumentError::Interval => "interval: expected a number from 0 to 4294967295",
            ArgumentError::MaxInterval => "max_interval: expected a number from 0 to 4294967295",
            ArgumentError::Options => "options: expected -, r, a or ra",
            ArgumentError::Limit(limit) => return write_limit(*limit, f),
        })
    }
}

fn write_limit<W: Write>(limit: Limit, f: &mut Formatter<W>) -> fmt::Result {
    let or_none = if limit.greatest() < limit.standard() {
        "- or "
    } else {
        ""
    };
    write!(
        f,
        "{}: expected {or_none}a number from 1 to {}",
        limit.name(),
        limit.greatest()
    )
}

/// What is wrong with the first line of a record.
#[derive(Clone, Copy, Debug, PartialEq, Eq)]
pub enum FirstLineError {
    /// The line of version 0.1.0, which has another form.
    Old,
    /// Not the line of a configuration.
    Wrong,
}

impl Display for FirstLineError {
    /// Writes what to do, or which line is valid.
    fn fmt<W: Write>(&self, f: &mut Formatter<W>) -> fmt::Result {
        match self {
            FirstLineError::Old => f.write_str(
                "the record was made by version 0.1.0, whose first line has another form; replay it with that version",
            ),
            FirstLineError::Wrong => {
                f.write_str(
                    "expected shards=.. timeout=.. interval=.. max_interval=.. options=..",
                )?;
                for limit in &Limit::ALL {
                    write!(f, " {}=..", limit.name())?;
                }
                Ok(())
            }
        }
    }
}

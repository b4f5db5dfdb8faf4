ghost use Rattle.std.specs.Prelude.{◌≡◌};
ghost use Rattle.pgr_run.specs.Status.{number_of};

/// How a run ended. Its number is the exit status of the program.
#[derive(Clone, Copy, Debug, PartialEq, Eq)]
pub enum Status {
    /// 0: the text of the table was written whole.
    Done,
    /// 1: a read of a file that the words name failed, or a write to the output.
    Outside,
    /// 2: the words aren't a command.
    Words,
    /// 3: a table isn't accepted, for another cause than its limits.
    Table,
    /// 4: a file is longer than the limit, or a table has too many rows or too great a sum of costs.
    Limit,
    /// 5: out of memory.
    Memory,
}

impl Status {
    /// The exit status: 0 to 5, in the order of the variants.
    pub fn number(self) -> u8
        ensures { result ≡ number_of self }
    {
        match self {
            Status::Done => 0,
            Status::Outside => 1,
            Status::Words => 2,
            Status::Table => 3,
            Status::Limit => 4,
            Status::Memory => 5,
        }
    }
}

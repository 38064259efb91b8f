//! How a command ended.

ghost use Rattle.std.specs.Prelude.{◌≡◌};
ghost use Rattle.operator_cli.specs.Codes.{code_of};

/// How a command ended, and so the exit status of the program.
#[derive(Clone, Copy, Debug, PartialEq, Eq)]
pub enum Status {
    /// 0: all was done.
    Done,
    /// 1: what was asked is refused or is not there, and what was written says why.
    Refused,
    /// 2: the words of the program are no command.
    NotUnderstood,
    /// 3: the command ended early, or its output failed, for a cause that standard error names if it can be written.
    Failed,
}

impl Status {
    /// The exit status.
    pub fn code(self) -> u8
        ensures { result ≡ code_of self }
    {
        match self {
            Status::Done => 0,
            Status::Refused => 1,
            Status::NotUnderstood => 2,
            Status::Failed => 3,
        }
    }
}

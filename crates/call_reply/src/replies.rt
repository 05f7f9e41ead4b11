// What a refused call is answered, and an accepted work.
ghost use Rattle.std.specs.Prelude.{◌≡◌, false, pos, replicate};
ghost use Rattle.call_reply.specs.Faults.{fault_number};
ghost use Rattle.call_reply.specs.Replies.{no_report, worked_reply};

use super::faults::Fault;
use super::{AskReply, BeginReply, ReadReply, ReportReply, RestartReply, WorkReply, Worked};
use engine::Report;

impl From<Fault> for BeginReply {
    ghost from_gives = { λ f r. r ≡ record { number = fault_number f; ticket = 0 } };

    fn from(fault: Fault) -> Self {
        BeginReply {
            number: fault.number(),
            ticket: 0,
        }
    }
}

impl From<Fault> for ReadReply {
    ghost from_gives = { λ f r. r ≡ record { number = fault_number f; value = pos 0 } };

    fn from(fault: Fault) -> Self {
        ReadReply {
            number: fault.number(),
            value: 0,
        }
    }
}

impl From<Fault> for AskReply {
    ghost from_gives = { λ f r. r ≡ record { number = fault_number f; read_only = false } };

    fn from(fault: Fault) -> Self {
        AskReply {
            number: fault.number(),
            read_only: false,
        }
    }
}

impl From<Fault> for ReportReply {
    ghost from_gives = { λ f r. r ≡ record { number = fault_number f; report = no_report } };

    fn from(fault: Fault) -> Self {
        ReportReply {
            number: fault.number(),
            report: Report {
                turn: 0,
                commits: 0,
                tickets: 0,
                open_count: 0,
                committed: 0,
                read_only: 0,
                aborted: 0,
                withdrawn: 0,
            },
        }
    }
}

impl From<Fault> for WorkReply {
    ghost from_gives = { λ f r. r
        ≡ record { number = fault_number f; sender = 0; moved = false; count = 0; ticket = 0; aborted = replicate 6 0; append = false } };

    fn from(fault: Fault) -> Self {
        WorkReply {
            number: fault.number(),
            sender: 0,
            moved: false,
            count: 0,
            ticket: 0,
            aborted: [0; 6],
            append: false,
        }
    }
}

impl From<Worked> for WorkReply {
    ghost from_gives = { λ w r. r ≡ worked_reply 0 w };

    fn from(worked: Worked) -> Self {
        let Worked {
            sender,
            moved,
            count,
            ticket,
            aborted,
            append,
            ..
        } = worked;
        WorkReply {
            number: 0,
            sender,
            moved,
            count,
            ticket,
            aborted,
            append,
        }
    }
}

impl From<Fault> for RestartReply {
    ghost from_gives = { λ f r. r ≡ record { number = fault_number f; count = 0 } };

    fn from(fault: Fault) -> Self {
        RestartReply {
            number: fault.number(),
            count: 0,
        }
    }
}

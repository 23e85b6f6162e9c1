//! The statuses that end a run before anything is written, by what was met on the way.

ghost use Rattle.std.specs.Prelude.{◌≡◌};
ghost use Rattle.smtrw_answers.specs.Faults.{status_of_answer, status_of_blasting, status_of_carrying, status_of_lexing, status_of_linking, status_of_model, status_of_model_lexing, status_of_passing, status_of_reading};
ghost use Rattle.smtrw_answers.specs.declared.status.Status.TheVariants.{OutOfMemory};

use crate::status::{Status, Usage, Why};
use bit_scripts::BlastScriptFault;
use dimacs_link::{AnswerFault, LinkCheckFault};
use model_texts::ModelFault;
use passes::{CarryFault, PassFault};
use script_read::{Refusal, ScriptFault};
use smt_lex::LexFault;
use std::alloc::AllocError;

/// The refusal of a script that has more than 67,108,864 bytes.
pub const TOO_LONG: Refusal = Refusal {
    code: 2,
    command: 0,
    line: 0,
    byte: 67_108_864,
};

fn lexical(code: u16, place: u32, line: u64) -> Status
    ensures { result ≡ Status.Refused (record { code = code; command = 0; line = line; byte = place }) }
{
    Status::Refused(Refusal {
        code,
        command: 0,
        line,
        byte: u64::from(place),
    })
}

impl From<LexFault> for Status {
    ghost from_gives = { λ fault status. status ≡ status_of_lexing fault };

    fn from(fault: LexFault) -> Status {
        match fault {
            LexFault::BadByte { place, line } => lexical(10, place, line),
            LexFault::BadToken { place, line } => lexical(11, place, line),
            LexFault::OpenText { place, line } => lexical(12, place, line),
            LexFault::Unbalanced { place, line } => lexical(13, place, line),
            LexFault::Memory => Status::OutOfMemory,
        }
    }
}

impl From<ScriptFault> for Status {
    ghost from_gives = { λ fault status. status ≡ status_of_reading fault };

    fn from(fault: ScriptFault) -> Status {
        match fault {
            ScriptFault::Refused(refusal) => Status::Refused(refusal),
            ScriptFault::Memory => Status::OutOfMemory,
        }
    }
}

impl From<PassFault> for Status {
    ghost from_gives = { λ fault status. status ≡ status_of_passing fault };

    fn from(fault: PassFault) -> Status {
        match fault {
            PassFault::QuantifiedUse { assertion } => Status::PassRefused {
                code: 50,
                assertion,
            },
            PassFault::Memory => Status::OutOfMemory,
        }
    }
}

/// The status at a fault of a model's tokens or parentheses.
pub fn model_unread(fault: LexFault) -> Status
    ensures { result ≡ status_of_model_lexing fault }
{
    let (code, byte, line) = match fault {
        LexFault::BadByte { place, line } => (10, place, line),
        LexFault::BadToken { place, line } => (11, place, line),
        LexFault::OpenText { place, line } => (12, place, line),
        LexFault::Unbalanced { place, line } => (13, place, line),
        LexFault::Memory => return Status::OutOfMemory,
    };
    Status::ModelRefused {
        code,
        line,
        byte: u64::from(byte),
    }
}

impl From<ModelFault> for Status {
    ghost from_gives = { λ fault status. status ≡ status_of_model fault };

    fn from(fault: ModelFault) -> Status {
        let (code, line, byte) = match fault {
            ModelFault::ModelForm { line, byte } => (60, line, byte),
            ModelFault::ModelSort { line, byte } => (61, line, byte),
            ModelFault::NotATable { line, byte } => (62, line, byte),
            ModelFault::ModelNumber { line, byte } => (63, line, byte),
            ModelFault::ModelTwice { line, byte } => (64, line, byte),
            ModelFault::Memory => return Status::OutOfMemory,
        };
        Status::ModelRefused { code, line, byte }
    }
}

impl From<CarryFault> for Status {
    ghost from_gives = { λ fault status. status ≡ status_of_carrying fault };

    fn from(fault: CarryFault) -> Status {
        match fault {
            CarryFault::NoSuchCheck { check, checks } => Status::Usage(Usage {
                word: 0,
                why: Why::NoSuchCheck { check, checks },
            }),
            CarryFault::EvalWidth { assertion, .. } => Status::PassRefused {
                code: 71,
                assertion,
            },
            CarryFault::Beyond128 { assertion, .. } => Status::Beyond128 { assertion },
            CarryFault::Memory => Status::OutOfMemory,
        }
    }
}

impl From<BlastScriptFault> for Status {
    ghost from_gives = { λ fault status. status ≡ status_of_blasting fault };

    fn from(fault: BlastScriptFault) -> Status {
        match fault {
            BlastScriptFault::NotBits { assertion } => Status::PassRefused {
                code: 90,
                assertion,
            },
            BlastScriptFault::Memory => Status::OutOfMemory,
        }
    }
}

impl From<LinkCheckFault> for Status {
    ghost from_gives = { λ fault status. status ≡ status_of_linking fault };

    fn from(fault: LinkCheckFault) -> Status {
        match fault {
            LinkCheckFault::NotClauses { assertion } => Status::PassRefused {
                code: 96,
                assertion,
            },
            LinkCheckFault::Memory => Status::OutOfMemory,
        }
    }
}

impl From<AnswerFault> for Status {
    ghost from_gives = { λ fault status. status ≡ status_of_answer fault };

    fn from(fault: AnswerFault) -> Status {
        match fault {
            AnswerFault::Form { line, byte } => Status::ModelRefused {
                code: 95,
                line,
                byte,
            },
            AnswerFault::Memory => Status::OutOfMemory,
        }
    }
}

impl From<AllocError> for Status {
    ghost from_gives = { λ _ status. status ≡ OutOfMemory };

    fn from(_error: AllocError) -> Status {
        Status::OutOfMemory
    }
}

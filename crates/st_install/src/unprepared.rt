//! Why nothing is installed.

ghost use Rattle.std.specs.Prelude.{◌≡◌};
ghost use Rattle.st_install.specs.inside.Unprepareds.{by_syntax, by_code, by_install};
ghost use Rattle.st_install.specs.declared.unprepared.Unprepared.TheVariants.{OutOfMemory};

use st_code::CodeFault;
use st_protocol::Refusal;
use st_scan::SyntaxFault;
use st_scope::InstallFault;
use std::alloc::AllocError;

/// Why a definition isn't ready to be installed.
#[derive(Clone, Copy, Debug, PartialEq, Eq)]
pub enum Unprepared {
    /// It is refused.
    Refused(Refusal),
    /// There was no memory.
    OutOfMemory,
}

impl From<SyntaxFault> for Unprepared {
    ghost from_gives = { λ fault u. u ≡ by_syntax fault };

    fn from(fault: SyntaxFault) -> Unprepared {
        match fault {
            SyntaxFault::At { place, cause } => Unprepared::Refused(Refusal::Syntax {
                place,
                cause,
            }),
            SyntaxFault::OutOfMemory => Unprepared::OutOfMemory,
        }
    }
}

impl From<CodeFault> for Unprepared {
    ghost from_gives = { λ fault u. u ≡ by_code fault };

    fn from(fault: CodeFault) -> Unprepared {
        match fault {
            CodeFault::At { place, cause } => Unprepared::Refused(Refusal::Code { place, cause }),
            CodeFault::OutOfMemory => Unprepared::OutOfMemory,
        }
    }
}

impl From<InstallFault> for Unprepared {
    ghost from_gives = { λ fault u. u ≡ by_install fault };

    fn from(fault: InstallFault) -> Unprepared {
        match fault {
            InstallFault::NoClass => Unprepared::Refused(Refusal::NoClass),
            InstallFault::NoGlobals => Unprepared::Refused(Refusal::NoGlobals),
            InstallFault::NoRoom { demand } => Unprepared::Refused(Refusal::NoRoom { demand }),
            InstallFault::Shape => Unprepared::Refused(Refusal::Shape),
            InstallFault::OutOfMemory => Unprepared::OutOfMemory,
        }
    }
}

impl From<AllocError> for Unprepared {
    ghost from_gives = { λ _ u. u ≡ OutOfMemory };

    fn from(_error: AllocError) -> Unprepared {
        Unprepared::OutOfMemory
    }
}

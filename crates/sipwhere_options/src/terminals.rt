//! What a person reads.
ghost use Rattle.std.specs.Prelude.{◌≡◌};
ghost use Rattle.sipwhere_options.specs.Terminals as spec;

use sip_report::{AddressForm, Report};

/// Which outputs are terminals.
#[derive(Clone, Copy, Debug, PartialEq, Eq)]
pub struct Terminals {
    /// The standard output.
    pub output: bool,
    /// The standard error.
    pub errors: bool,
}

/// The form of addresses: the short one where it is asked for, or lines go to a terminal.
pub fn form_for(short: bool, report: Report, terminals: Terminals) -> AddressForm
    ensures { result ≡ spec.form_for short report terminals }
{
    match report {
        Report::Lines if short || terminals.output => AddressForm::Short,
        Report::Json if short => AddressForm::Short,
        Report::Check if short => AddressForm::Short,
        Report::Metrics if short => AddressForm::Short,
        _ => AddressForm::Full,
    }
}

/// Whether the program reports how many texts are done: where the lines of what became of them,
/// which show that too, go elsewhere.
pub fn shows_progress(terminals: Terminals) -> bool
    ensures { result ≡ spec.shows_progress terminals }
{
    terminals.errors && !terminals.output
}

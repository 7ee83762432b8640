//! What a refusal says of the forms.

ghost use Rattle.wac_parser.specs.PlainFaults.{PlainFaultsLeaveNoTree};

/// A source that is refused otherwise than as nested too deep spells no tree at all.
pub fn plain_faults_leave_no_tree()
    ensures { PlainFaultsLeaveNoTree }
{}

//! Logs: the items of a core's log.

ghost use Rattle.osexamples.specs.{Border.activation, Logs.SaysItems, Logs.activation_log};

/// One activation across the border: the log of core 0, which requests it, lists the items that this core takes.
pub fn activation_log_says_its_items()
    ensures { SaysItems activation 0 activation_log }
{}

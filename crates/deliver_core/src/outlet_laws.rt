//! The law of an outlet.

ghost use Rattle.deliver_core.specs.Outlets.{OutletLaw};

/// After every list of events, the messages taken of a port followed by those still waiting are
/// those that the port sent, and every message belongs to one of the ports.
pub fn outlet_law()
    ensures { OutletLaw }
{}

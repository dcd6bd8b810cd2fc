//! What the definitions of the loop's side of an application imply, as facts that a caller can cite.

ghost use Rattle.application_telling.specs.Laws.{PortGoesByTheModel};

/// The loop's side of an application goes by the model of the loop: how many octets wait, where its stream stands, and which lines it says.
pub fn port_goes_by_the_model()
    ensures { PortGoesByTheModel }
{}

//! What the definitions of a loop with an application imply of its code, as facts that a caller can cite. The functions do nothing; their contracts are the laws.

ghost use Rattle.er_end.specs.Keeping.{WaitsMove, OctetsBring, Uses};
ghost use Rattle.er_end.specs.Standing.{MadeStands};
ghost use Rattle.application_loop.specs.LinkGoing.{OccursByTheModel, StagesGoOn};
ghost use Rattle.application_loop.specs.StackSteps.{KeptGoOnAlike, KeptAnswerAlike, KeptCallAlike};

/// An end as the code keeps it goes on as the stack's kind of ends says, of which the model of the loop speaks: the same comes of each event, under the keys that
/// hold as it comes. Refuses a loop that gives an end the keys of its start for ever.
pub fn kept_ends_tell_alike()
    ensures on { KeptGoOnAlike }
    ensures answers { KeptAnswerAlike }
    ensures calls { KeptCallAlike }
{
    er_end::laws::standing();
}

// An event at a link is that event of the model: its lines are those that the model records, and the application is told what the model tells it.
fn occurs_by_the_model()
    ensures { OccursByTheModel }
{
    kept_ends_tell_alike();
    application_telling::laws::port_goes_by_the_model();
}

// What an event tells of how far its end is, is so of the end as it is kept.
fn stages_go_on()
    ensures { StagesGoOn }
{
    er_end::laws::standing();
    er_end::laws::keeping();
    er_end_model::laws::releases();
}

// What makes an event at a link a step of what is served.
pub(crate) fn events_serve()
    ensures on { KeptGoOnAlike }
    ensures model { OccursByTheModel }
    ensures stages { StagesGoOn }
    ensures waits { WaitsMove }
    ensures bring { OctetsBring }
    ensures uses { Uses }
{
    er_end::laws::keeping();
    er_end::laws::used_octets();
    kept_ends_tell_alike();
    occurs_by_the_model();
    stages_go_on();
}

// What makes an end that calls one of the model, as it is opened and behind its first event.
pub(crate) fn opens_calls()
    ensures calls { KeptCallAlike }
    ensures stages { StagesGoOn }
    ensures made { MadeStands }
{
    kept_ends_tell_alike();
    stages_go_on();
    er_end::laws::standing();
}

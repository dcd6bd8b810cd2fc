//! What the clauses of the calls come to, as facts that a reader can cite. The functions do nothing; their contracts are the laws.

ghost use Rattle.er_end_c.specs.Runs.{RunsAsModel};

/// Calls on one handle from the making of its end on, each an event, are a run of the end model: each answers what the model's step tells,
/// and behind them the calls that read answer what the model says of its end.
pub fn runs()
    ensures { RunsAsModel }
{
    er_end::laws::standing();
    x224_class2::laws::standing();
    hdlc_frames::laws::kept_stands_for_stream();
}

//! What an audit finds of what ends sent and accepted: of one end, of two, and of each link of a world; and what its verdicts rest on. The functions
//! do nothing; their contracts are the laws.

ghost use Rattle.tap_laws.specs.Progress.{LiveSides, SidesProgress};
ghost use Rattle.tap_laws.specs.Runs.{EndsAreRuns};
ghost use Rattle.tap_laws.specs.LawsBelow.{LawsOfOneEnd, LawsOfTwoEnds};
ghost use Rattle.tap_laws.specs.OneEnd.{AcceptedIsGood};
ghost use Rattle.tap_laws.specs.InText.{SidesAreInText, TextFindsAccepted};
ghost use Rattle.tap_laws.specs.OwnRecordings.{OwnRecordingIsGood};
ghost use Rattle.tap_laws.specs.Pairs.{PairsAudited};
ghost use Rattle.tap_laws.specs.Worlds.{AuditFindsAccepted};
ghost use Rattle.tap_laws.specs.AnyLine.{AuditFindsTold, AuditFindsUnforged};
ghost use Rattle.tap_laws.specs.Macs.{MacsDecide};
ghost use Rattle.tap_laws.specs.Genuine.{GoodIsSent, GoodIsSentBefore};

/// How far the safety side of an end is, over any events, by the octets that it was given: nothing accepted before the first text told the
/// numbers of the session, and then each accepted message is a DT that was given, in their order, under its keys. The safety side of an end that isn't released isn't released either.
pub fn sides_progress()
    ensures progress { SidesProgress }
    ensures live { LiveSides }
{
    safety_automaton::laws::steps();
    safety_automaton::laws::valid_sides();
    er_end_model::laws::events_speak_once();
}

/// Each end of a link is an end that was opened, behind a list of events of its own, and the one that calls is started first.
pub fn ends_are_runs()
    ensures { EndsAreRuns }
{}

// What is known of one end, for the laws of audits.
fn laws_of_one_end()
    ensures { LawsOfOneEnd }
{
    t70_header::laws::wrapping();
    tap_hearing::laws::given_is_heard();
    sides_progress();
}

// And of two.
fn laws_of_two_ends()
    ensures { LawsOfTwoEnds }
{
    laws_of_one_end();
    er_end_pair_laws::laws::prefix();
    er_end_pair_laws::laws::greets();
    er_end_model::laws::octets_are_heard();
    ends_are_runs();
}

/// One end alone, at modulo 8, over any events, with its KMAC, and beside any stream of its own side whose first item tells its random number: what
/// it accepted is a prefix of the texts of its peer's good DTs in the audit, and equal to it while the end isn't released. Nothing is said of the
/// line or of the peer.
pub fn accepted_is_good()
    ensures { AcceptedIsGood }
{
    laws_of_one_end();
}

/// So too with the end's own recording: the octets that came to it, and beside them those that it sent. Of openings in range; an end that answers sent
/// an I frame.
pub fn own_recording_is_good()
    ensures { OwnRecordingIsGood }
{
    t70_header::laws::wrapping();
    hdlc_frames::laws::frame_reads_as_itself();
    hdlc_frames::laws::flag_parts();
    hdlc_frames::laws::control_reads_back();
    er_settings::laws::allowed_are_bounded();
    x224_tpdu::laws::reading();
    x224_tpdu::laws::writing();
    sapdu::laws::spelled_is_read();
    sapdu::laws::lengths_of_spellings();
    cbc_mac::laws::mac_below();
    safety_automaton::laws::steps();
    accepted_is_good();
}

/// Two ends over two lines that keep their order, at modulo 8, where both have one KMAC: an audit of the octets that were passed finds good what
/// the ends accepted, and while an end isn't released nothing else of its peer's messages.
pub fn pairs_audited()
    ensures { PairsAudited }
{
    laws_of_two_ends();
}

/// Every list of steps of a world, each link of level full at modulo 8 that keeps its order, whatever it loses and repeats, and every tap of what was
/// passed on it with a key file in which the KMAC of both ends is found at the moment of the tap: what each end accepted is a prefix of the texts of
/// its peer's good DTs in the audit, and equal to it while that end isn't released. This crate stands above worlds, so the law is here.
pub fn audit_finds_accepted()
    ensures { AuditFindsAccepted }
{
    drill_laws::laws::stacks_run();
    pairs_audited();
}

/// The text of an audit has the lines of each side of each link that its tap opens, those of the items and verdicts of which the laws here speak. So what
/// is found of what both ends accepted is printed.
pub fn audit_text_finds_accepted()
    ensures sides { SidesAreInText }
    ensures accepted { TextFindsAccepted }
{
    tap_model::laws::audit_has_all_links();
    audit_finds_accepted();
}

/// Every list of steps of a world, each link of level full at modulo 8, whatever its line does, and every such tap of it: at an end beside which the tap
/// tells the own random number, if the end accepted a message, what it accepted is a prefix of the texts of its peer's good DTs in the audit, and equal
/// to it while that end isn't released.
pub fn audit_finds_told()
    ensures { AuditFindsTold }
{
    laws_of_two_ends();
    drill_laws::laws::stacks_run();
}

/// So too at an end whose connection isn't marked as forged: whatever its messages are marked, and the connection of the other end.
pub fn audit_finds_unforged()
    ensures { AuditFindsUnforged }
{
    laws_of_two_ends();
    des_block::laws::decipher_undoes_encipher();
    des_block::laws::encipher_undoes_decipher();
    des_block::laws::gives_blocks();
    safety_automaton::laws::session_keys();
    drill_laws::laws::stacks_run();
    drill_laws::laws::stacks_talk();
    drill_laws::laws::stacks_accept();
    drill_laws::laws::lawful();
    audit_finds_told();
}

/// With a session an AU2, AU3, AR or DT in its place is good exactly where its MAC is that of the text that its sender sealed, all 64 bits of it, and
/// else it has a wrong MAC.
pub fn macs_decide()
    ensures { MacsDecide }
{}

/// Every list of steps of a world, each link of level full, whatever its line does, and every item of a tap: a good DT of a side is a message that
/// this side sent on that link in these steps, unless neither side had sealed its text under those session keys.
pub fn good_is_sent_before()
    ensures { GoodIsSentBefore }
{
    safety_automaton::laws::texts_tell();
    drill_laws::laws::lawful();
}

/// Every tap whatever, with whatever keys, judged beside such a link: each good DT of a side is such a message.
pub fn good_is_sent()
    ensures { GoodIsSent }
{
    good_is_sent_before();
}

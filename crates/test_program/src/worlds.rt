//! Worlds of links that drills step through.

ghost use Rattle.std.specs.Prelude.{◌≡◌, false, IfOk};
ghost use Rattle.er_scenario.specs.declared.level.Level.TheVariants as level;
ghost use Rattle.drill_model.specs.StepLevels.{IsOfLevel};

use des_block::TripleKey;
use er_base::{EtcsNumber, Moment, NoMemory, Octets, Side, decimal_word};
use er_scenario::{Level, Step};
use er_settings::Settings;
use er_world::{World, WorldFault};
use std::alloc::Global;
use std::test::Fail;

const K: TripleKey = TripleKey {
    first: 0x0123456789abcdef,
    second: 0x23456789abcdef01,
    third: 0x456789abcdef0123,
};

const RA: u64 = 0x1122334455667788;

const RB: u64 = 0x0102030405060708;

/// A step on a link whose number stands beside it.
#[derive(Clone, Copy)]
enum Move<'a> {
    Fixed,
    Called(u64),
    Send(Side, &'a [u8]),
    Pass(Side),
    Lose(Side),
    Repeat(Side),
    Alter(Side, u64),
    Put(Side, &'a [u8]),
    /// To link 2.
    Copy(Side, Side),
    Release(Side, u8),
    Drain,
}

// A word and a number behind it.
fn put_count(word: &[u8], number: u64, line: &mut Vec<u8>) -> Result<(), NoMemory> {
    line.extend_from_slice(word)?;
    decimal_word(number, line)
}

/// The step of a move on a link.
fn step_of(alloc: Global, link: u8, made: &Move) -> Result<Step, NoMemory>
    ensures level { IfOk result (λ step. IsOfLevel level.Safe step) }
{
    match made {
        Move::Fixed => Ok(Step::Fixed {
            link,
            engine: EtcsNumber::new(5),
            rbc: EtcsNumber::new(9),
            ke: K,
            kr: K,
        }),
        Move::Called(ra) => Ok(Step::Link {
            link,
            engine: EtcsNumber::new(5),
            rbc: EtcsNumber::new(9),
            ke: K,
            kr: Some(K),
            ra: *ra,
            rb: RB,
        }),
        Move::Send(side, user) => {
            let text = Octets::new(Vec::from_slice(alloc, user)?);
            Ok(Step::Send {
                link,
                side: *side,
                text,
            })
        }
        Move::Pass(side) => Ok(Step::Pass { link, side: *side }),
        Move::Lose(side) => Ok(Step::Lose { link, side: *side }),
        Move::Repeat(side) => Ok(Step::Repeat { link, side: *side }),
        Move::Alter(side, place) => Ok(Step::Alter {
            link,
            side: *side,
            place: *place,
            mask: 1,
        }),
        Move::Put(side, frame) => {
            let text = Octets::new(Vec::from_slice(alloc, frame)?);
            Ok(Step::Put {
                link,
                side: *side,
                text,
            })
        }
        Move::Copy(side, to_side) => Ok(Step::Copy {
            link,
            side: *side,
            to_link: 2,
            to_side: *to_side,
        }),
        Move::Release(side, sub) => Ok(Step::Release {
            link,
            side: *side,
            sub: *sub,
        }),
        Move::Drain => Ok(Step::Drain { link, most: 10 }),
    }
}

/// Does a step; what came of it is printed, or the fault's name.
fn take(alloc: Global, world: &mut World, step: &Step, out: &mut Vec<u8>) -> Result<(), NoMemory>
    requires level { IsOfLevel world.old.plan.level step.now }
    ensures { world.new.plan ≡ world.old.plan }
{
    if world.spent() {
        out.extend_from_slice(b"spent\n")?;
        return Ok(());
    }
    match world.apply(alloc, step, out) {
        Ok(()) => Ok(()),
        Err(WorldFault::NoMemory(want)) => Err(want),
        Err(WorldFault::NoLink(_)) => Ok(out.extend_from_slice(b"no link\n")?),
        Err(WorldFault::LinkTwice(_)) => Ok(out.extend_from_slice(b"link twice\n")?),
        Err(WorldFault::MomentBack { .. }) => Ok(out.extend_from_slice(b"moment back\n")?),
        Err(WorldFault::Overfull { .. }) => Ok(out.extend_from_slice(b"overfull\n")?),
    }
}

/// Prints the totals of a world.
fn put_totals(world: &World, out: &mut Vec<u8>) -> Result<(), NoMemory>
    requires { world.now.spent ≡ false }
{
    let totals = world.totals();
    put_count(b"sent ", totals.sent, out)?;
    put_count(b" accepted ", totals.accepted, out)?;
    put_count(b" passes ", totals.passes, out)?;
    put_count(b" lost ", totals.lost, out)?;
    put_count(b" repeated ", totals.repeated, out)
}

/// What these moves print, each on the link of its number, the closing lines and the totals included.
fn printed(alloc: Global, show: bool, moves: &[(u8, Move)]) -> Result<Vec<u8>, NoMemory> {
    let mut out = Vec::new(alloc);
    let mut world = World::new(alloc, Level::Safe, Settings::usual(), show)?;
    for (link, made) in moves {
        let step = step_of(alloc, *link, made)?;
        take(alloc, &mut world, &step, &mut out)?;
    }
    if world.spent() {
        return Ok(out);
    }
    world.summary(alloc, &mut out)?;
    put_totals(&world, &mut out)?;
    Ok(out)
}

/// A message of link 1 on link 2, which was set up with the same random numbers.
#[test]
fn marks_what_another_link_sealed(rt: HostRuntime) -> Result<(), Fail> {
    let moves = [
        (1, Move::Called(RA)),
        (2, Move::Called(RA)),
        (1, Move::Drain),
        (2, Move::Drain),
        (1, Move::Send(Side::E, b"A")),
        (1, Move::Copy(Side::E, Side::E)),
        (2, Move::Pass(Side::E)),
    ];
    let text = printed(rt.alloc(), false, &moves)?;
    let want =
        b"1 r connected 5\n1 e connected 9\n1 passes 4\n2 r connected 5\n2 e connected 9\n2 passes 4\n2 r accepted 41 forged\n1 end passes 4 waiting 1 0\n2 end passes 5 waiting 0 0\nsent 1 accepted 1 passes 9 lost 0 repeated 0";
    assert_eq!(rt; text.as_slice(), want.as_slice());
    Ok(())
}

/// What the line does, what is refused, and the frames.
#[test]
fn changes_what_waits(rt: HostRuntime) -> Result<(), Fail> {
    let moves = [
        (3, Move::Lose(Side::E)),
        (3, Move::Fixed),
        (3, Move::Fixed),
        (3, Move::Lose(Side::E)),
        (3, Move::Put(Side::E, b"\x10\x07\x08")),
        (3, Move::Alter(Side::E, 3)),
        (3, Move::Alter(Side::E, 2)),
        (3, Move::Repeat(Side::E)),
        (3, Move::Lose(Side::E)),
        (3, Move::Pass(Side::E)),
        (3, Move::Release(Side::E, 44)),
        (3, Move::Send(Side::E, b"A")),
        (0, Move::Fixed),
    ];
    let text = printed(rt.alloc(), true, &moves)?;
    let want =
        b"no link\nlink twice\n3 e empty\n3 e short 3\n3 r released 7 9 peer\n3 e released 0 44 local\n3 e frame 10002c\n3 e refused released 0 44\nno link\n3 end passes 1 waiting 1 0\nsent 0 accepted 0 passes 1 lost 1 repeated 1";
    assert_eq!(rt; text.as_slice(), want.as_slice());
    Ok(())
}

/// A step on the link 1 of a world of level link, or of its time.
#[derive(Clone, Copy)]
enum WireMove<'a> {
    Wire,
    Send(Side, &'a [u8]),
    Pass(Side),
    Lose(Side),
    Put(Side, &'a [u8]),
    Release(Side, u8),
    Tick(u32),
    Drain,
}

/// The step of a move of level link or link-sr.
fn wire_step_of(alloc: Global, made: &WireMove) -> Result<Step, NoMemory>
    ensures level { IfOk result (λ step. IsOfLevel level.Link step) }
    ensures selective { IfOk result (λ step. IsOfLevel level.LinkSr step) }
{
    let link = 1;
    match made {
        WireMove::Wire => Ok(Step::Wire { link }),
        WireMove::Send(side, payload) => {
            let text = Octets::new(Vec::from_slice(alloc, payload)?);
            Ok(Step::Send {
                link,
                side: *side,
                text,
            })
        }
        WireMove::Pass(side) => Ok(Step::Pass { link, side: *side }),
        WireMove::Lose(side) => Ok(Step::Lose { link, side: *side }),
        WireMove::Put(side, octets) => {
            let text = Octets::new(Vec::from_slice(alloc, octets)?);
            Ok(Step::Put {
                link,
                side: *side,
                text,
            })
        }
        WireMove::Release(side, sub) => Ok(Step::Release {
            link,
            side: *side,
            sub: *sub,
        }),
        WireMove::Tick(moment) => Ok(Step::Tick {
            moment: Moment::new(*moment as u64),
        }),
        WireMove::Drain => Ok(Step::Drain { link, most: 20 }),
    }
}

/// The closing line of a world and its totals, where no step broke off.
fn put_end(alloc: Global, world: &World, out: &mut Vec<u8>) -> Result<(), NoMemory> {
    if world.spent() {
        return Ok(());
    }
    world.summary(alloc, out)?;
    put_totals(world, out)
}

/// What these moves of level link print, the closing line and the totals included.
fn printed_of_wire(alloc: Global, moves: &[WireMove]) -> Result<Vec<u8>, NoMemory> {
    let mut out = Vec::new(alloc);
    let mut world = World::new(alloc, Level::Link, Settings::usual(), false)?;
    for made in moves {
        let step = wire_step_of(alloc, made)?;
        take(alloc, &mut world, &step, &mut out)?;
    }
    put_end(alloc, &world, &mut out)?;
    Ok(out)
}

/// The same of level link-sr, with a window of half the modulo.
fn printed_of_selective_wire(alloc: Global, moves: &[WireMove]) -> Result<Vec<u8>, NoMemory> {
    let mut out = Vec::new(alloc);
    let settings = Settings {
        window: 4,
        ..Settings::usual()
    };
    let mut world = World::new(alloc, Level::LinkSr, settings, false)?;
    for made in moves {
        let step = wire_step_of(alloc, made)?;
        take(alloc, &mut world, &step, &mut out)?;
    }
    put_end(alloc, &world, &mut out)?;
    Ok(out)
}

/// The first of two frames is lost and asked for by a REJ; a lost answer is made good by T1; a frame is cut over two passes; what is
/// refused, time that goes back, and a release.
#[test]
fn makes_good_what_a_line_loses(rt: HostRuntime) -> Result<(), Fail> {
    let moves = [
        WireMove::Wire,
        WireMove::Drain,
        WireMove::Send(Side::E, b"A"),
        WireMove::Send(Side::E, b"B"),
        WireMove::Lose(Side::E),
        WireMove::Drain,
        WireMove::Send(Side::E, b"C"),
        WireMove::Pass(Side::E),
        WireMove::Lose(Side::R),
        WireMove::Tick(1000),
        WireMove::Tick(999),
        WireMove::Drain,
        WireMove::Put(Side::R, b"\x7a\xcd\x7e"),
        WireMove::Put(Side::R, b"\x7e\x01\x0d"),
        WireMove::Pass(Side::R),
        WireMove::Pass(Side::R),
        WireMove::Send(Side::R, b""),
        WireMove::Release(Side::R, 9),
        WireMove::Send(Side::E, b"D"),
        WireMove::Drain,
    ];
    let text = printed_of_wire(rt.alloc(), &moves)?;
    let want =
        b"1 r up\n1 e up\n1 passes 2\n1 r accepted 41\n1 r accepted 42\n1 passes 6\n1 r accepted 43\nmoment back\n1 passes 2\n1 e released 1 3 local\n1 r refused length 0\n1 r released 0 9 local\n1 e refused released 1 3\n1 passes 2\n1 end passes 15 waiting 0 0\nsent 3 accepted 3 passes 15 lost 2 repeated 0";
    assert_eq!(rt; text.as_slice(), want.as_slice());
    Ok(())
}

/// The first of three frames is lost: the others are held, a SREJ asks for it, and all three are accepted when it comes.
#[test]
fn asks_for_what_a_line_loses(rt: HostRuntime) -> Result<(), Fail> {
    let moves = [
        WireMove::Wire,
        WireMove::Drain,
        WireMove::Send(Side::E, b"A"),
        WireMove::Send(Side::E, b"B"),
        WireMove::Send(Side::E, b"C"),
        WireMove::Lose(Side::E),
        WireMove::Drain,
    ];
    let text = printed_of_selective_wire(rt.alloc(), &moves)?;
    let want =
        b"1 r up\n1 e up\n1 passes 2\n1 r accepted 41\n1 r accepted 42\n1 r accepted 43\n1 passes 5\n1 end passes 7 waiting 0 0\nsent 3 accepted 3 passes 7 lost 1 repeated 0";
    assert_eq!(rt; text.as_slice(), want.as_slice());
    Ok(())
}

//! An end of a link of a drill, as its lines name it.

ghost use Rattle.std.specs.Prelude.{◌≡◌};
ghost use Rattle.er_base.specs.Sides.{other};

use er_base::Side;

/// An end of a link of a drill, as its lines name it.
#[derive(Clone, Copy)]
pub struct Place {
    /// The link, 1 to 64.
    pub number: u8,
    /// The end.
    pub side: Side,
    /// Whether the frames that it sends are printed.
    pub show: bool,
}

impl Place {
    /// The other end of the link.
    pub fn other(self) -> Place
        ensures { result ≡ record self { side = other self.side } }
    {
        Place {
            number: self.number,
            side: self.side.other(),
            show: self.show,
        }
    }
}

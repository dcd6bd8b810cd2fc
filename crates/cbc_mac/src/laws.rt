//! What holds of the MAC of every text.

ghost use Rattle.cbc_mac.specs.Laws.{MacBelow};

/// The MAC is a number of 64 bits, whatever the keys and the text.
pub fn mac_below()
    ensures { MacBelow }
{
    des_block::laws::gives_blocks();
}

//! Numbers as octets, the most significant first.

ghost use Rattle.std.specs.Prelude.{◌≡◌, ◌<◌, ◌^◌};
ghost use Rattle.er_base.specs.Octets.{two, three, eight, number_in};

/// The two octets that spell a number.
pub fn two_of(number: u16) -> [u8; 2]
    ensures { result ≡ two number }
{
    number.to_be_bytes()
}

/// The three octets that spell a number below 2^24.
pub fn three_of(number: u32) -> [u8; 3]
    requires { number < 2 ^ 24 }
    ensures { result ≡ three number }
{
    let [_, high, middle, low] = number.to_be_bytes();
    [high, middle, low]
}

/// The eight octets that spell a number.
#[tactic(auto, unfolding(crate::specs::Octets::eight))]
pub fn eight_of(number: u64) -> [u8; 8]
    ensures { result ≡ eight number }
{
    number.to_be_bytes()
}

/// The number that eight octets spell.
#[tactic(auto, using(std::proofs::lemmas::Nat::be_bytes_8), unfolding(crate::specs::Octets::eight))]
pub fn number_of(octets: &[u8; 8]) -> u64
    ensures spelled { eight result ≡ octets.now }
    ensures number { result ≡ number_in octets.now }
{
    u64::from_be_bytes(*octets)
}

//! Vectors of another implementation.

use cbc_mac::{MacKey, mac};
use des_block::TripleKey;

const KEYS: [TripleKey; 3] = [
    TripleKey {
        first: 0x5a91_e9f3_bc76_f347,
        second: 0xda89_0c32_ccc1_1b27,
        third: 0x0914_8260_528b_df33,
    },
    TripleKey {
        first: 0x7ae4_730f_0de0_287c,
        second: 0xcd7c_13e1_3edc_a1da,
        third: 0x2ad0_6b22_b301_f873,
    },
    TripleKey {
        first: 0x4ad0_8308_1db1_dd4f,
        second: 0xc90d_8886_2bfb_dc0e,
        third: 0x13cc_1553_dbde_8f7a,
    },
];

// The place of the keys in the table above, the length of the text, and its MAC. Made by Python's package
// `cryptography` 48.0.0 (OpenSSL 3): TripleDES with one key three times, in mode CBC over the text with zero
// octets behind, then its last block deciphered and enciphered in mode ECB. Octet i of each text, counted
// from 0, is 7 * i + 3 modulo 256; the keys are the first eight octets of the SHA-256 of `mac00`, `mac01` ..
const OUTSIDE: [(usize, usize, u64); 15] = [
    (0, 1, 0x0cad_0084_cce4_2d27),
    (1, 7, 0xd136_2ad2_353f_1d28),
    (2, 8, 0x2d50_1825_c971_f346),
    (0, 9, 0x135a_78ab_5b45_7132),
    (1, 15, 0x81cf_5bcb_6cc5_8ae2),
    (2, 16, 0xca67_c648_7507_41e5),
    (0, 17, 0x2be8_4841_edcd_ef16),
    (1, 31, 0x1ab4_10c9_3265_dad0),
    (2, 64, 0xa302_549e_41ee_766e),
    (0, 100, 0xf49d_1be1_acc5_5be3),
    (1, 255, 0xda59_e684_b0f0_2ef0),
    (2, 256, 0xa401_f537_5561_2e66),
    (0, 1000, 0x920c_7550_65b4_a42c),
    (1, 1023, 0xbef5_d356_d548_f664),
    (2, 1024, 0x47bb_fb86_b332_6655),
];

// The longest text.
fn longest_text() -> [u8; 1024] {
    let mut text = [0; 1024];
    for i in 0..1024usize {
        text[i] = ((7 * i + 3) % 256) as u8;
    }
    text
}

// Whether a text has this MAC under one of the keys, prepared or not.
fn is_made(set: usize, text: &[u8], answer: u64) -> bool {
    let Some(key) = KEYS.get(set) else {
        return false;
    };
    !text.is_empty() && mac(key, text) == answer && MacKey::new(key).mac(text) == answer
}

#[test]
fn outside_vectors(rt: HostRuntime) {
    let text = longest_text();
    for (set, length, answer) in OUTSIDE {
        let text = text.get(..length).unwrap_or(&[]);
        assert!(rt; is_made(set, text, answer), "{length} octets");
    }
}

//! Vectors of another implementation.

use des_block::TripleKey;
use session_keys::{Kmac, derive};

// KMAC, Ra, Rb and the session keys. Made by Python's package `cryptography` 48.0.0 (OpenSSL 3), TripleDES in
// mode ECB with one key three times for each step; the keys and numbers are the first eight octets of the
// SHA-256 of `kmac00`, `ra0`, `rb0` and so on. The last row is of a block, a key and an answer of DES that have stood in print for long.
const OUTSIDE: [(TripleKey, u64, u64, TripleKey); 5] = [
    (
        TripleKey {
            first: 0xbb54_f9a6_40e1_a864,
            second: 0xf712_a60f_5590_c461,
            third: 0xf8d6_f225_90aa_96a1,
        },
        0x537f_8300_7fb5_43ad,
        0x5b17_fee4_350c_c0bb,
        TripleKey {
            first: 0xbba2_acc2_081d_13bb,
            second: 0x3566_ab5e_ca0c_4b64,
            third: 0xd11b_d824_267c_f7cf,
        },
    ),
    (
        TripleKey {
            first: 0x7a69_d66c_609e_2494,
            second: 0xd742_79a8_64b1_e3c9,
            third: 0x716f_88d7_492b_01a5,
        },
        0x1af9_6ef6_22a5_6fab,
        0x44ee_a34b_9229_34be,
        TripleKey {
            first: 0xbb40_740e_5685_0d87,
            second: 0x0acb_ddcc_da29_d23a,
            third: 0x3726_85c5_f186_ac09,
        },
    ),
    (
        TripleKey {
            first: 0x84f5_b2d8_2fb2_2cff,
            second: 0x2559_e5a1_ff43_9195,
            third: 0x1baf_167e_67bc_231d,
        },
        0xb4a1_e4d2_9819_e6cc,
        0x4fd3_c19a_ee32_0a19,
        TripleKey {
            first: 0x2cd0_4606_5208_b8e0,
            second: 0xd5e8_908e_69a6_72ce,
            third: 0x839a_efaa_76d4_2fb6,
        },
    ),
    (
        TripleKey {
            first: 0x25b3_c1b7_dfc1_7e9f,
            second: 0x5d42_c7a1_344f_cd9e,
            third: 0x66d4_cf72_442b_a165,
        },
        0xb8c4_60ee_6bd2_274f,
        0x9b4d_b0c2_b320_e010,
        TripleKey {
            first: 0xf084_c227_f46a_d136,
            second: 0x8fe6_34ee_c0ca_bf25,
            third: 0x37b4_dcaa_d0fe_c298,
        },
    ),
    (
        TripleKey {
            first: 0x1334_5779_9bbc_dff1,
            second: 0x1334_5779_9bbc_dff1,
            third: 0x1334_5779_9bbc_dff1,
        },
        0x0123_4567_0123_4567,
        0x89ab_cdef_89ab_cdef,
        TripleKey {
            first: 0x85e8_1354_0f0a_b405,
            second: 0x85e8_1354_0f0a_b405,
            third: 0x85e8_1354_0f0a_b405,
        },
    ),
];

// Whether these session keys are derived, with types and without.
fn are_derived(kmac: &TripleKey, ra: u64, rb: u64, keys: &TripleKey) -> bool {
    derive(kmac, ra, rb) == *keys && Kmac::new(*kmac).session_keys(ra, rb).key() == *keys
}

#[test]
fn outside_vectors(rt: HostRuntime) {
    for (kmac, ra, rb, keys) in OUTSIDE {
        assert!(rt; are_derived(&kmac, ra, rb, &keys), "Ra {ra}");
    }
}

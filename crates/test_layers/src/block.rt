//! Vectors of other implementations, for the body over tables and the plain one.

use des_block::{KeySchedule, TripleKey, decipher, encipher, plain};
use std::test::Fail;

// Keys, blocks and what DES makes of them. Made by Python's package `cryptography` 48.0.0 (OpenSSL 3), TripleDES in mode ECB with one key three times;
// keys and blocks are the first eight octets of the SHA-256 of `key0`, `block0` and so on. Together they read
// each of the 512 entries of the boxes; row 1, column 3 of S3 is read by the last alone.
// The last four have stood in print for long.
const OUTSIDE: [(u64, u64, u64); 29] = [
    (
        0xa819_408c_e501_0ca2,
        0x3da2_892d_3782_3d92,
        0xa414_3bce_53ca_3983,
    ),
    (
        0x8174_0996_87a2_6621,
        0x9a59_c5f8_229a_ab55,
        0xf9d8_ccd1_1fa3_4382,
    ),
    (
        0xb102_5376_4c8b_233f,
        0x6d0b_07ee_7735_91f2,
        0x12fd_88c5_f176_4021,
    ),
    (
        0xf576_104e_ebea_b096,
        0x7e56_ddaf_f5ff_44d9,
        0x073a_3b8c_918c_87b0,
    ),
    (
        0xa4b3_504c_2769_fce9,
        0x2150_08ba_416e_b06b,
        0x82dd_5536_5c15_3698,
    ),
    (
        0x07e7_394e_0702_340d,
        0x2e13_4675_975c_e520,
        0x78f0_eb6c_e4e5_ee9e,
    ),
    (
        0x8dfa_d052_fee5_c629,
        0x90e0_b521_b80e_5dce,
        0xce11_9c99_0d20_6daf,
    ),
    (
        0x1e3f_92d0_f678_eb83,
        0x9299_4524_5ae9_e32e,
        0xc90a_2e19_c4ee_3212,
    ),
    (
        0x5bda_7a9c_0fb9_e510,
        0x40d5_6ca5_2bfa_310b,
        0x62e7_3fda_32c4_fa23,
    ),
    (
        0xdd9d_6e02_66d0_a3f9,
        0x2866_aa07_b372_4b1a,
        0x4938_6709_9f54_614d,
    ),
    (
        0x148b_c7fa_770e_6e05,
        0xff65_cfdc_257d_3b39,
        0x70c3_f2f3_0a9f_f6c9,
    ),
    (
        0xe964_e91c_b42e_10c4,
        0x3762_446e_14a8_df6d,
        0xa83b_1305_f65a_661e,
    ),
    (
        0x0406_23b9_13f9_2eb6,
        0x46a9_fa88_e96b_172a,
        0x1633_b34e_18ce_fb43,
    ),
    (
        0x4852_46e6_c73d_3289,
        0x8ad6_b21b_88fe_a2eb,
        0x55d5_e35a_3769_b0d7,
    ),
    (
        0x1e0c_92fd_487a_ae40,
        0x567b_27d7_eea6_f6fd,
        0x27e2_cf81_a86c_7f3b,
    ),
    (
        0x6b4e_7621_b69f_1b9e,
        0xd12b_68c2_6c72_7103,
        0xdcb9_2fb3_fca6_99f7,
    ),
    (
        0xa949_63d1_046f_43c9,
        0x44c3_b66a_dd3c_c236,
        0xcde7_ba0c_1c10_e335,
    ),
    (
        0xaa92_89d9_eb73_a668,
        0x3988_ae6f_a5f6_d3eb,
        0x41fa_caed_b86d_6e34,
    ),
    (
        0x4b28_7637_3069_2691,
        0x1ec5_9a76_761a_7274,
        0xa68a_6dd1_2335_859d,
    ),
    (
        0xbe00_3d98_279f_ed79,
        0x7bc0_1429_969b_f697,
        0xe406_d5b6_36ea_0ad6,
    ),
    (
        0x7db4_e26c_a1ef_c6d6,
        0x448b_94c3_36eb_d8f4,
        0xf578_935f_19a7_dc0b,
    ),
    (
        0xbbe3_d6a9_e6f3_4097,
        0x14ea_4006_05a3_5860,
        0xfc2b_0d66_2385_76ae,
    ),
    (
        0x8ca0_692f_ef99_2293,
        0xaf4c_06c1_009a_2216,
        0xbca8_8648_ae0d_4cf2,
    ),
    (
        0xb774_b982_ad17_764f,
        0x33bf_f580_03b4_58f2,
        0x03f7_9c5e_0b14_faa8,
    ),
    (
        0xe875_3fbc_8482_0c5b,
        0xaae4_dea4_ea0a_d008,
        0xd03b_aedb_ed73_4caf,
    ),
    (
        0x1334_5779_9bbc_dff1,
        0x0123_4567_89ab_cdef,
        0x85e8_1354_0f0a_b405,
    ),
    (0x0e32_9232_ea6d_0d73, 0x8787_8787_8787_8787, 0),
    (0, 0, 0x8ca6_4de9_c1b1_23a7),
    (u64::MAX, u64::MAX, 0x7359_b216_3e4e_dc58),
];

// Whether each body makes the answer of the block, and the block of the answer.
fn is_made(key: u64, block: u64, answer: u64) -> bool {
    let schedule = KeySchedule::new(key);
    schedule.encipher(block) == answer
        && schedule.decipher(answer) == block
        && encipher(key, block) == answer
        && decipher(key, answer) == block
        && plain::encipher(key, block) == answer
        && plain::decipher(key, answer) == block
}

#[test]
fn outside_vectors(rt: HostRuntime) {
    for (key, block, answer) in OUTSIDE {
        assert!(rt; is_made(key, block, answer), "{block}");
    }
}

#[test]
fn triple_keys_print_no_key(rt: HostRuntime) -> Result<(), Fail> {
    let key = TripleKey {
        first: 0x1334_5779_9bbc_dff1,
        second: 2,
        third: 3,
    };
    let printed = format!(in rt.alloc(); "{key:?}")?;
    assert!(rt; printed.as_str() == "TripleKey(..)");
    Ok(())
}

//! What holds of DES for every key and every block of 64 bits, and of its tables.

ghost use Rattle.std.specs.Prelude.{◌≡◌, IsTrue, drop, fold, length, take, ◌+◌};
ghost use Rattle.std.specs.List.{list_all, range_with_len};
ghost use Rattle.bit_lists.specs.Bits.{pick};
ghost use Rattle.des_block.specs.Boxes.{boxes};
ghost use Rattle.des_block.specs.Laws.{DecipherUndoesEncipher, EncipherUndoesDecipher, GivesBlocks};
ghost use Rattle.des_block.specs.TableLaws.{c_places, d_places, each_once, groups_of_six, has_rows, key_places};
ghost use Rattle.des_block.specs.Tables.{
  initial_permutation,
  inverse_initial_permutation,
  expansion,
  permutation,
  permuted_choice_1,
  permuted_choice_2,
  left_shifts,
};

/// A block that was enciphered and then deciphered under the same key is the block again.
pub fn decipher_undoes_encipher()
    ensures { DecipherUndoesEncipher }
{}

/// A block that was deciphered and then enciphered under the same key is the block again.
pub fn encipher_undoes_decipher()
    ensures { EncipherUndoesDecipher }
{}

/// What a list of bits is enciphered or deciphered to is a block of 64 bits.
pub fn gives_blocks()
    ensures { GivesBlocks }
{}

/// The tables and boxes have what those of FIPS 46-3 have. A single wrong entry breaks one of these.
pub fn standard_tables()
    // IP and P are permutations, and IP⁻¹ undoes IP.
    ensures initial_permutation { IsTrue (each_once (range_with_len 1 64) initial_permutation) }
    ensures inverse { pick inverse_initial_permutation initial_permutation ≡ range_with_len 1 64 }
    ensures permutation { IsTrue (each_once (range_with_len 1 32) permutation) }

    // E takes four places in a row, with the neighbour on each side, for each box.
    ensures expansion { expansion ≡ groups_of_six }

    // Each of the four rows of each of the eight boxes has the numbers from 0 to 15.
    ensures boxes { (length boxes ≡ 8) × IsTrue (list_all has_rows boxes) }

    // PC-1 chooses each bit of the key once but for the parity bits, PC-2 all but eight of C and D.
    ensures permuted_choice_1 { IsTrue (each_once key_places permuted_choice_1) }
    ensures permuted_choice_2_c { IsTrue (each_once c_places (take 24 permuted_choice_2)) }
    ensures permuted_choice_2_d { IsTrue (each_once d_places (drop 24 permuted_choice_2)) }

    // The sixteen left shifts, by one or two places, lead C and D once round.
    ensures left_shifts { (length left_shifts ≡ 16) × (fold (λ n shift. n + shift) 0 left_shifts ≡ 28) }
{}

//! The words of a line, parted by spaces.

ghost use Rattle.std.specs.Prelude.{◌≡◌, ◌<◌, ◌≤◌, [], ◌∷◌, length, MatchOption, IfSome};
ghost use Rattle.std.specs.List.{prefix_len};
ghost use Rattle.er_base.specs.Words.{is_space, is_of_word, without_spaces, first_word, after_first_word, words_of};

const SPACE: u8 = b' ';

fn spaces_before(line: &[u8]) -> usize
    ensures value { result ≡ prefix_len is_space line.now }
    ensures inside { result ≤ length line.now }
{
    line.iter().take_while(|octet| **octet == SPACE).count()
}

fn word_length(line: &[u8]) -> usize
    ensures value { result ≡ prefix_len is_of_word line.now }
    ensures inside { result ≤ length line.now }
{
    line.iter().take_while(|octet| **octet != SPACE).count()
}

fn behind_spaces(line: &[u8]) -> &[u8]
    ensures { result.now ≡ without_spaces line.now }
{
    &line[spaces_before(line)..]
}

/// The next word of a line and what follows it, the spaces before it skipped; None exactly where only spaces remain.
pub fn next_word(line: &[u8]) -> Option<(&[u8], &[u8])>
    ensures cut { MatchOption result (without_spaces line.now ≡ [])
        (λ p. (p.0.now ≡ first_word line.now) × (p.1.now ≡ after_first_word line.now)) }
    ensures nonempty { IfSome result (λ p. 0 < length p.0.now) }
    ensures words { MatchOption result (words_of line.now ≡ []) (λ p. words_of line.now ≡ p.0.now ∷ words_of p.1.now) }
{
    let rest = behind_spaces(line);
    if rest.is_empty() {
        return None;
    }
    let (word, after) = rest.split_at(word_length(rest));
    Some((word, after))
}

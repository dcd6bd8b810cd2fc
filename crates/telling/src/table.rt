//! Tables in text. A row is a line: a name, `|`, and what stands for it.

/// What stands for this name in a table; None where no row has it.
pub(crate) fn text_of(table: &'static str, name: &[u8]) -> Option<&'static str> {
    for row in table.split('\n') {
        let (word, text) = row.split_once('|')?;
        if word.as_bytes() == name {
            return Some(text);
        }
    }
    None
}

/// The same in two parts, between which stands another `|`.
pub(crate) fn texts_of(table: &'static str, name: &[u8]) -> Option<(&'static str, &'static str)> {
    text_of(table, name)?.split_once('|')
}

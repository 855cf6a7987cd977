// Rows that lie one after another in one list of words.
ghost use Rattle.std.specs.Prelude.{◌≡◌, ◌+◌, ◌*◌, ◌≤◌, ◌++◌, length, take, drop};
ghost use Rattle.map_bank.specs.Held.{rows_of};

// The first rows.
pub(crate) fn first_rows(words: &[u64], count: usize) -> &[[u64; 16]]
    requires { 16 * count ≤ length words.now }
    ensures { result.now ≡ rows_of count words.now }
{
    let (rows, _) = words.as_chunks::<16>();
    &rows[..count]
}

// Puts a row at place i, over what lies there. By hand, since `as_chunks_mut` says nothing of what the words end as.
pub(crate) fn write_row(words: &mut [u64], i: usize, row: &[u64; 16])
    requires { 16 * i + 16 ≤ length words.old }
    ensures { words.new ≡ take (16 * i) words.old ++ (row.now ++ drop (16 * i + 16) words.old) }
{
    words[16 * i..16 * i + 16].copy_from_slice(&row[..]);
}

// Lines of text. Each function writes from place n of a text on, and answers the place after what it wrote.
// A struct of the text and its place would hold the lent array by `&mut`, and leave what `run` promises of `text.new` to the loan's end.
ghost use Rattle.std.specs.Prelude.{◌≡◌, [], ◌∷◌, ◌++◌, ◌+◌, ◌*◌, ◌≤◌, ◌<◌, length};
ghost use Rattle.rules.specs.Job.{digits, decimal, line, fault, done_line, refused_line, samples_text, rows_text};
ghost use Rattle.job.specs.Written.{Room, Appends, sample_text, row_text};

// One byte.
fn put(text: &mut [u8], n: usize, byte: u8) -> usize
    requires { Room text.old n (byte ∷ []) }
    ensures { Appends text.old n (byte ∷ []) text.new result }
{
    text[n] = byte;
    n + 1
}

// A digit's byte.
fn glyph(digit: usize) -> u8
    requires { digit < 10 }
    ensures { result ≡ 48 + digit }
{
    (48 + digit) as u8
}

// A number of at most `most` digits, in decimal.
fn put_digits(text: &mut [u8], n: usize, most: usize, value: usize) -> usize
    requires { Room text.old n (digits most value) }
    ensures { Appends text.old n (digits most value) text.new result }
{
    if most == 0 {
        return n;
    }
    if value < 10 {
        return put(text, n, glyph(value));
    }
    let last = put_digits(text, n, most - 1, value / 10);
    put(text, last, glyph(value % 10))
}

// Bytes as they are.
fn put_bytes(text: &mut [u8], n: usize, bytes: &[u8]) -> usize
    requires { Room text.old n bytes.now }
    ensures { Appends text.old n bytes.now text.new result }
{
    let mut at = n;
    for byte in bytes {
        at = put(text, at, *byte);
    }
    at
}

// A line of a word and a number.
fn put_numbered(text: &mut [u8], word: &[u8], number: usize) -> usize
    requires { Room text.old 0 (line (word.now ++ decimal number)) }
    ensures { Appends text.old 0 (line (word.now ++ decimal number)) text.new result }
{
    let first = put_bytes(text, 0, word);
    let end = put_digits(text, first, 5, number);
    put(text, end, b'\n')
}

// A job fault.
pub(crate) fn put_fault(text: &mut [u8], number: usize) -> usize
    requires { Room text.old 0 (fault number) }
    ensures { Appends text.old 0 (fault number) text.new result }
{
    put_numbered(text, b"job ", number)
}

// A refusal of the decoder.
pub(crate) fn put_refused(text: &mut [u8], number: usize) -> usize
    requires { Room text.old 0 (refused_line number) }
    ensures { Appends text.old 0 (refused_line number) text.new result }
{
    put_numbered(text, b"refused ", number)
}

// A sample: a space, its value, and an asterisk unless its map byte is 0.
fn put_sample(text: &mut [u8], n: usize, value: usize, mark: u8) -> usize
    requires { Room text.old n (sample_text value mark) }
    ensures { Appends text.old n (sample_text value mark) text.new result }
{
    let number = put(text, n, b' ');
    let end = put_digits(text, number, 5, value);
    if mark != 0 {
        return put(text, end, b'*');
    }
    end
}

// Samples, each with its mark.
fn put_samples(text: &mut [u8], n: usize, samples: &[u16], map: &[u8]) -> usize
    requires map_len { length map.now ≡ length samples.now }
    requires room { Room text.old n (samples_text samples.now map.now) }
    ensures { Appends text.old n (samples_text samples.now map.now) text.new result }
{
    let mut at = n;
    for i in 0..samples.len() {
        at = put_sample(text, at, usize::from(samples[i]), map[i]);
    }
    at
}

// A row's line: its number, a colon, and its samples.
fn put_row(text: &mut [u8], n: usize, row: usize, samples: &[u16], map: &[u8]) -> usize
    requires map_len { length map.now ≡ length samples.now }
    requires room { Room text.old n (row_text row samples.now map.now) }
    ensures { Appends text.old n (row_text row samples.now map.now) text.new result }
{
    let colon = put_digits(text, n, 5, row);
    let first = put(text, colon, b':');
    let end = put_samples(text, first, samples, map);
    put(text, end, b'\n')
}

// The rows of a frame, a line for each.
fn put_rows(
    text: &mut [u8],
    n: usize,
    width: usize,
    height: usize,
    samples: &[u16],
    map: &[u8],
) -> usize
    requires height_in_bounds { (width * height ≤ length samples.now) × (length map.now ≡ length samples.now) }
    requires room { Room text.old n (rows_text width height 0 samples.now map.now) }
    ensures { Appends text.old n (rows_text width height 0 samples.now map.now) text.new result }
{
    let mut at = n;
    for row in 0..height {
        let first = row * width;
        let end = first + width;
        at = put_row(text, at, row, &samples[first..end], &map[first..end]);
    }
    at
}

// The line "done", and the rows.
pub(crate) fn put_frame(
    text: &mut [u8],
    width: usize,
    height: usize,
    samples: &[u16],
    map: &[u8],
) -> usize
    requires height_in_bounds { (width * height ≤ length samples.now) × (length map.now ≡ length samples.now) }
    requires room { Room text.old 0 (done_line ++ rows_text width height 0 samples.now map.now) }
    ensures { Appends text.old 0 (done_line ++ rows_text width height 0 samples.now map.now) text.new result }
{
    let first = put_bytes(text, 0, b"done\n");
    put_rows(text, first, width, height, samples, map)
}

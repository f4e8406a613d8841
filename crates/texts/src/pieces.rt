//! Cuts a text into lines, and a line into fields.
ghost use Rattle.std.specs.Prelude.{◌≡◌, ◌+◌, ◌<◌, ◌≤◌, ◌∷◌, ◌^◌, option_map, IfSome, length, position, ◌==◌};
ghost use Rattle.std.specs.Option.{option_copied};
ghost use Rattle.std.specs.Iterator.{YieldsFirstBy, item_count};
ghost use Rattle.texts.specs.Cuts.{lines, fields, numbered, without_end, most_pieces, cut, pieces, pieces_in};

/// A line of a text, or a field of a line, with its number.
#[derive(Clone, Copy, Debug)]
pub struct Piece<'a> {
    pub number: usize,
    pub bytes: &'a [u8],
}

/// Goes over lines or fields.
#[derive(Clone, Copy, Debug)]
pub struct Pieces<'a> {
    rest: Option<&'a [u8]>,
    by: u8,
    number: usize,
    // No piece has a number too large for the type.
    ghost few: { number + most_pieces (option_copied rest) < 2 ^ 64 },
}

impl<'a> Pieces<'a> {
    ghost use Rattle.texts.specs.Pieces.{left};

    /// The lines of a text, numbered from 1.
    pub fn lines(text: &'a [u8]) -> Self
        ensures { left result ≡ numbered 1 (lines text.now) }
    {
        Pieces::all(without_end(text), b'\n')
    }

    /// The fields of a line, numbered from 1.
    pub fn fields(line: &'a [u8]) -> Self
        ensures { left result ≡ numbered 1 (fields line.now) }
    {
        Pieces::all(Some(line), b'\t')
    }

    /// The pieces of some bytes, numbered from 1.
    fn all(bytes: Option<&'a [u8]>, by: u8) -> Self
        ensures { left result ≡ numbered 1 (pieces_in by (option_copied bytes.entry)) }
    {
        Pieces {
            rest: bytes,
            by,
            number: 1,
        }
    }
}

impl<'a> Iterator for Pieces<'a> {
    ghost use Rattle.texts.specs.Pieces.{left, as_numbered};

    type Item = Piece<'a>;

    ghost next_gives = { YieldsFirstBy as_numbered left };

    ghost remaining = { item_count left };

    fn next(&mut self) -> Option<Piece<'a>> {
        let rest = self.rest?;
        let number = self.number;
        let (bytes, after) = first_piece(rest, self.by);
        self.rest = after;
        self.number += 1;
        Some(Piece { number, bytes })
    }
}

/// The first piece of some bytes, and the bytes of the others if there are any.
#[tactic(auto, using(crate::proofs::Cutting::cut_off, crate::proofs::Cutting::uncut))]
fn first_piece(bytes: &[u8], by: u8) -> (&[u8], Option<&[u8]>)
    ensures pieces { pieces by bytes.now ≡ result.0.now ∷ pieces_in by (option_copied result.1) }
    ensures fewer { most_pieces (option_copied result.1) ≤ length bytes.now }
{
    match cut_at(bytes, by) {
        Some((piece, after)) => (piece, Some(after)),
        None => (bytes, None),
    }
}

/// The bytes before the first byte `by`, and those after it.
pub(crate) fn cut_at(bytes: &[u8], by: u8) -> Option<(&[u8], &[u8])>
    ensures parts { option_map (λ r. (r.0.now, r.1.now)) result ≡ cut by bytes.now }
    ensures shorter { IfSome result (λ r. length r.1.now + 1 ≤ length bytes.now) }
{
    let index = index_of(by, bytes)?;
    Some((&bytes[..index], &bytes[index + 1..]))
}

/// The index of the first byte `by`.
fn index_of(by: u8, bytes: &[u8]) -> Option<usize>
    ensures index { result ≡ position (λ b. b == by) bytes.now }
    ensures within { IfSome result (λ k. k < length bytes.now) }
{
    bytes.iter().position(|byte| *byte == by)
}

/// A text without the end of its last line, and none where there is no line.
#[tactic(auto, using(crate::proofs::Ends::ended, crate::proofs::Ends::not_ended))]
fn without_end(text: &[u8]) -> Option<&[u8]>
    ensures { option_copied result ≡ without_end text.now }
{
    match text.split_last() {
        None => None,
        Some((b'\n', before)) => Some(before),
        Some(_) => Some(text),
    }
}

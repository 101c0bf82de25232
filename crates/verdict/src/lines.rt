//! The lines of a report and lists of them, each as it is read and as it is written.
ghost use Rattle.std.specs.Prelude.{◌≡◌, ◌≤◌, [], ◌∷◌, ◌++◌, ℕ, List, Option, OnOk, IfSome, Some, length};
ghost use Rattle.std.specs.List.{AllByRecursion, flat_map};
ghost use Rattle.lengths.specs.Text.{IsText};
ghost use Rattle.verdict.specs.Lawful.{IsBranchLine, IsNumber, IsOpen, IsPointLine, IsShort, IsSourceLine, IsSpotLine, IsTwig};
ghost use Rattle.verdict.specs.ReportReading as spec;
ghost use Rattle.verdict.specs.ReportText as report;

use crate::fields::{
    begins_blank, behind_byte, count, expect, expect_byte, expect_line_number, layer, line_end,
    net_number, parent, short, short_end, signed_word, titled, usual_parent, usual_place,
    usual_word, word, word_after,
};
use crate::line_number::{LineNumber, behind_short};
use crate::report_reading::ReadFault;
use crate::verdict::{Branch, Open, PointLine, Short, SourceLine, SpotLine, Tree, Twig};
use lengths::rows::Rows;
use lengths::text::{Text, TextFault};
use std::alloc::{AllocError, Global};
use texts::{place_of, put, put_behind, put_blank_number, put_blank_signed};

/// What stands behind a blank as often as there are some, up to the end of a line.
pub trait Word: Drop {
    /// What reading gives.
    ghost at: { List ℕ → Option (Self × List ℕ) };

    /// What is written.
    ghost text: { Self → List ℕ };

    /// Its numbers and names are in the ranges of their types.
    ghost is_lawful: { Self → Type 0 };

    /// What stands in front, and the bytes behind it.
    fn read(bytes: &[u8]) -> Result<(Self, &[u8]), ReadFault>
        ensures { spec.Gives (λ x. (x.0, x.1.now)) result (at bytes.now) };

    /// Puts its text behind others. Whoever does learns that the item is lawful.
    fn write(&self, out: &mut Vec<u8>) -> Result<(), AllocError>
        ensures written { OnOk result (out.new.items ≡ out.old.items ++ text self.now) }
        ensures lawful { OnOk result (is_lawful self.now) };
}

/// What a counted list of a report has, on lines of its own.
pub trait Line: Drop {
    /// What reading gives.
    ghost at: { ℕ → List ℕ → Option (Self × List ℕ) };

    /// What is written.
    ghost text: { ℕ → Self → List ℕ };

    /// Its numbers and names are in the ranges of their types.
    ghost is_lawful: { Self → Type 0 };

    /// What stands in front as the item of a line of this number, and the bytes behind it.
    fn read(alloc: Global, line: LineNumber, bytes: &[u8]) -> Result<(Self, &[u8]), ReadFault>
        ensures { spec.Gives (λ x. (x.0, x.1.now)) result (at line.number bytes.now) };

    /// Puts its text behind others. Whoever does learns that the item is lawful.
    fn write(&self, number: u64, out: &mut Vec<u8>) -> Result<(), AllocError>
        ensures written { OnOk result (out.new.items ≡ out.old.items ++ text number self.now) }
        ensures lawful { OnOk result (is_lawful self.now) };
}

// A twig of usual numbers, where one stands in front.
#[inline(always)]
fn usual_twig(bytes: &[u8]) -> Option<(Twig, &[u8])>
    ensures { IfSome result (λ x. spec.twig_at bytes.now ≡ Some (x.0, x.1.now)) }
{
    let (piece, behind_piece) = usual_word(bytes)?;
    let (parent, rest) = usual_parent(behind_piece)?;
    Some((Twig { piece, parent }, rest))
}

// Any twig.
#[cold]
#[inline(never)]
#[tactic(auto, unfolding(crate::specs::ReportReading::twig_at))]
fn any_twig(bytes: &[u8]) -> Result<(Twig, &[u8]), ReadFault>
    ensures { spec.Gives (λ x. (x.0, x.1.now)) result (spec.twig_at bytes.now) }
{
    let (piece, rest) = word(bytes)?;
    let (parent, rest) = parent(rest)?;
    Ok((Twig { piece, parent }, rest))
}

impl Word for Twig {
    ghost at = { spec.twig_at };

    ghost text = { report.twig_text };

    ghost is_lawful = { IsTwig };

    fn read(bytes: &[u8]) -> Result<(Twig, &[u8]), ReadFault> {
        match usual_twig(bytes) {
            Some((twig, rest)) => Ok((twig, rest)),
            None => any_twig(bytes),
        }
    }

    fn write(&self, out: &mut Vec<u8>) -> Result<(), AllocError> {
        put_blank_number(out, u64::from(self.piece))?;
        match self.parent {
            None => Ok(()),
            Some(parent) => put_behind(out, b':', u64::from(parent)),
        }
    }
}

impl Word for u32 {
    ghost at = { spec.word_at };

    ghost text = { report.word };

    ghost is_lawful = { IsNumber };

    fn read(bytes: &[u8]) -> Result<(u32, &[u8]), ReadFault> {
        word(bytes)
    }

    fn write(&self, out: &mut Vec<u8>) -> Result<(), AllocError> {
        put_blank_number(out, u64::from(*self))
    }
}

// Most lines have at most so many words: their list takes memory once.
const USUAL_WORDS: usize = 8;

// All words up to the byte that is no blank. Each takes a byte at least.
fn words<T: Word>(alloc: Global, bytes: &[u8]) -> Result<(Rows<T>, &[u8]), ReadFault>
    ensures { spec.Gives (λ x. (x.0, x.1.now)) result (spec.words_at T.at (length bytes.now) bytes.now) }
{
    let mut words = Rows::with_capacity(alloc, USUAL_WORDS)?;
    let mut rest = bytes;
    for _ in 0..bytes.len() {
        if !begins_blank(rest) {
            return Ok((words, rest));
        }
        let (word, behind) = T::read(rest)?;
        words.push(word)?;
        rest = behind;
    }
    Err(ReadFault::NotAReport)
}

// Writes words, each behind a blank.
fn write_words<T: Word>(out: &mut Vec<u8>, words: &[T]) -> Result<(), AllocError>
    ensures written { OnOk result (out.new.items ≡ out.old.items ++ flat_map T.text words.now) }
    ensures lawful { OnOk result (AllByRecursion T.is_lawful words.now) }
{
    for word in words {
        word.write(out)?;
    }
    Ok(())
}

// A title and the number of a line. It is inlined, so that a title that is known is compared at once.
#[inline(always)]
#[tactic(auto, unfolding(crate::specs::ReportReading::heading_at))]
fn heading<'a>(bytes: &'a [u8], title: &[u8], line: LineNumber) -> Result<&'a [u8], ReadFault>
    ensures { spec.Gives (λ rest. rest.now) result (spec.heading_at title.now line.number bytes.now) }
{
    let rest = expect(bytes, title)?;
    let rest = expect_byte(rest, b' ')?;
    expect_line_number(rest, line)
}

// A title with the blank behind it, and the number of a line, where they stand in front.
#[inline(always)]
fn usual_heading<'a>(bytes: &'a [u8], front: &[u8], line: LineNumber) -> Option<&'a [u8]>
    requires { length front.now ≤ 7 }
    ensures { IfSome result (λ rest. (title : List ℕ) → front.now ≡ title ++ 32 ∷ [] → spec.heading_at title line.number bytes.now ≡ Some rest.now) }
{
    let behind_front = behind_short(bytes, front)?;
    let rest = line.behind(behind_front)?;
    Some(rest)
}

// Writes a title and the number of a line. It is inlined, so that a title that is known is stored directly.
#[inline(always)]
fn write_heading(out: &mut Vec<u8>, title: &[u8], number: u64) -> Result<(), AllocError>
    ensures { OnOk result (out.new.items ≡ out.old.items ++ (title.now ++ report.word number)) }
{
    put(out, title)?;
    put_blank_number(out, number)
}

/// Writes a title, a count and the end of the line.
pub fn write_count(out: &mut Vec<u8>, title: &[u8], n: u64) -> Result<(), AllocError>
    ensures { OnOk result (out.new.items ≡ out.old.items ++ report.count_line title.now n) }
{
    write_heading(out, title, n)?;
    put(out, b"\n")
}

// Writes the net of a point, or a minus for none.
fn write_net(out: &mut Vec<u8>, net: Option<u32>) -> Result<(), AllocError>
    ensures written { OnOk result (out.new.items ≡ out.old.items ++ report.net_text net) }
    ensures lawful { OnOk result (IfSome net IsNumber) }
{
    match net {
        None => put(out, b" -"),
        Some(net) => put_blank_number(out, u64::from(net)),
    }
}

// A name and the end of its line.
#[tactic(auto, unfolding(crate::specs::ReportReading::text_at))]
fn text(alloc: Global, bytes: &[u8]) -> Result<(Text, &[u8]), ReadFault>
    ensures { spec.Gives (λ x. (x.0, x.1.now)) result (spec.text_at bytes.now) }
{
    let end = place_of(bytes, b'\n');
    if end == bytes.len() {
        return Err(ReadFault::NotAReport);
    }
    match Text::new(alloc, &bytes[..end]) {
        Ok(name) => Ok((name, &bytes[end + 1..])),
        Err(TextFault::BadText) => Err(ReadFault::NotAReport),
        Err(TextFault::NoMemory) => Err(ReadFault::NoMemory),
    }
}

impl Line for Tree {
    ghost at = { spec.net_at };

    ghost text = { report.net_line };

    ghost is_lawful = { AllByRecursion IsTwig };

    #[tactic(auto, unfolding(crate::specs::ReportReading::net_at))]
    fn read(alloc: Global, line: LineNumber, bytes: &[u8]) -> Result<(Tree, &[u8]), ReadFault> {
        let rest = heading(bytes, b"net", line)?;
        let (net, rest) = words(alloc, rest)?;
        line_end(net, rest)
    }

    fn write(&self, number: u64, out: &mut Vec<u8>) -> Result<(), AllocError> {
        write_heading(out, b"net", number)?;
        write_words(out, self.as_slice())?;
        put(out, b"\n")
    }
}

impl Line for Text {
    ghost at = { spec.name_at };

    ghost text = { report.name_line };

    ghost is_lawful = { IsText };

    #[tactic(auto, unfolding(crate::specs::ReportReading::name_at))]
    fn read(alloc: Global, line: LineNumber, bytes: &[u8]) -> Result<(Text, &[u8]), ReadFault> {
        let rest = heading(bytes, b"name", line)?;
        let rest = expect_byte(rest, b' ')?;
        text(alloc, rest)
    }

    fn write(&self, number: u64, out: &mut Vec<u8>) -> Result<(), AllocError> {
        write_heading(out, b"name", number)?;
        put(out, b" ")?;
        put(out, self.as_bytes())?;
        put(out, b"\n")
    }
}

// The line of a point as most are, on a net and a layer of one digit, where one stands in front.
#[inline(always)]
fn usual_point(bytes: &[u8], line: LineNumber) -> Option<(PointLine, &[u8])>
    ensures { IfSome result (λ x. spec.point_at line.number bytes.now ≡ Some (x.0, x.1.now)) }
{
    let rest = usual_heading(bytes, b"point ", line)?;
    let (number, behind_number) = word_after(rest, line)?;
    let (layer, behind_layer) = short(behind_number)?;
    let (name, behind_name) = usual_word(behind_layer)?;
    let (net, behind_net) = usual_word(behind_name)?;
    let end = behind_byte(behind_net, b'\n')?;
    let net = Some(net);
    let line = PointLine {
        number,
        layer,
        name,
        net,
    };
    Some((line, end))
}

// The line of any point.
#[cold]
#[inline(never)]
#[tactic(auto, unfolding(crate::specs::ReportReading::point_at))]
fn any_point(bytes: &[u8], number: u64) -> Result<(PointLine, &[u8]), ReadFault>
    ensures { spec.Gives (λ x. (x.0, x.1.now)) result (spec.point_at number bytes.now) }
{
    let rest = heading(bytes, b"point", LineNumber::of(number))?;
    let (record, rest) = word(rest)?;
    let (layer, rest) = layer(rest)?;
    let (name, rest) = word(rest)?;
    let (net, rest) = net_number(rest)?;
    let line = PointLine {
        number: record,
        layer,
        name,
        net,
    };
    line_end(line, rest)
}

impl Line for PointLine {
    ghost at = { spec.point_at };

    ghost text = { report.point_line };

    ghost is_lawful = { IsPointLine };

    fn read(_: Global, line: LineNumber, bytes: &[u8]) -> Result<(PointLine, &[u8]), ReadFault> {
        match usual_point(bytes, line) {
            Some((point, rest)) => Ok((point, rest)),
            None => any_point(bytes, line.number),
        }
    }

    fn write(&self, number: u64, out: &mut Vec<u8>) -> Result<(), AllocError> {
        write_heading(out, b"point", number)?;
        put_blank_number(out, u64::from(self.number))?;
        put_blank_number(out, u64::from(self.layer))?;
        put_blank_number(out, u64::from(self.name))?;
        write_net(out, self.net)?;
        put(out, b"\n")
    }
}

impl Line for Open {
    ghost at = { spec.open_at };

    ghost text = { report.line_of report.open_line };

    ghost is_lawful = { IsOpen };

    #[tactic(auto, unfolding(crate::specs::ReportReading::open_at))]
    fn read(_: Global, _: LineNumber, bytes: &[u8]) -> Result<(Open, &[u8]), ReadFault> {
        let rest = expect(bytes, b"open")?;
        let (name, rest) = word(rest)?;
        let (home, rest) = word(rest)?;
        let (other, rest) = word(rest)?;
        let (probe, rest) = word(rest)?;
        let line = Open {
            name,
            home,
            other,
            probe,
        };
        line_end(line, rest)
    }

    fn write(&self, _: u64, out: &mut Vec<u8>) -> Result<(), AllocError> {
        put(out, b"open")?;
        write_words(out, &[self.name, self.home, self.other, self.probe])?;
        put(out, b"\n")
    }
}

impl Line for Branch {
    ghost at = { spec.branch_at };

    ghost text = { report.line_of report.branch_line };

    ghost is_lawful = { IsBranchLine };

    #[tactic(auto, unfolding(crate::specs::ReportReading::branch_at))]
    fn read(alloc: Global, _: LineNumber, bytes: &[u8]) -> Result<(Branch, &[u8]), ReadFault> {
        let rest = expect(bytes, b"branch")?;
        let (name, rest) = word(rest)?;
        let (probe, rest) = word(rest)?;
        let (pieces, rest) = words(alloc, rest)?;
        let line = Branch {
            name,
            probe,
            pieces,
        };
        line_end(line, rest)
    }

    fn write(&self, _: u64, out: &mut Vec<u8>) -> Result<(), AllocError> {
        put(out, b"branch")?;
        write_words(out, &[self.name, self.probe])?;
        write_words(out, self.pieces.as_slice())?;
        put(out, b"\n")
    }
}

impl Line for Short {
    ghost at = { spec.short_at };

    ghost text = { report.line_of report.short_lines };

    ghost is_lawful = { IsShort };

    #[tactic(auto, unfolding(crate::specs::ReportReading::short_at))]
    fn read(alloc: Global, _: LineNumber, bytes: &[u8]) -> Result<(Short, &[u8]), ReadFault> {
        let rest = expect(bytes, b"short")?;
        let (net, rest) = word(rest)?;
        let (count, rest) = count(rest)?;
        let (branches, rest) = items(alloc, count, rest)?;
        Ok((Short { net, branches }, rest))
    }

    fn write(&self, _: u64, out: &mut Vec<u8>) -> Result<(), AllocError> {
        put(out, b"short")?;
        put_blank_number(out, u64::from(self.net))?;
        put_blank_number(out, self.branches.as_slice().len() as u64)?;
        put(out, b"\n")?;
        write_items(out, self.branches.as_slice())
    }
}

// The probe of a point without a net.
impl Line for u32 {
    ghost at = { spec.bare_at };

    ghost text = { report.line_of report.bare_line };

    ghost is_lawful = { IsNumber };

    fn read(_: Global, _: LineNumber, bytes: &[u8]) -> Result<(u32, &[u8]), ReadFault> {
        titled(bytes, b"bare")
    }

    fn write(&self, _: u64, out: &mut Vec<u8>) -> Result<(), AllocError> {
        write_count(out, b"bare", u64::from(*self))
    }
}

// Writes a place: its x and its y, each behind a blank.
fn write_place(out: &mut Vec<u8>, spot: &SpotLine) -> Result<(), AllocError>
    ensures written { OnOk result (out.new.items ≡ out.old.items ++ (report.signed_word spot.now.x ++ report.signed_word spot.now.y)) }
    ensures lawful { OnOk result (IsSpotLine spot.now) }
{
    put_blank_signed(out, spot.x)?;
    put_blank_signed(out, spot.y)
}

// The line of a place as most are, where one stands in front.
#[inline(always)]
#[tactic(auto, using(crate::proofs::Usual::usual_spot_reads))]
fn usual_spot(bytes: &[u8], line: LineNumber) -> Option<(SpotLine, &[u8])>
    ensures { IfSome result (λ s. spec.spot_at line.number bytes.now ≡ Some (s.0, s.1.now)) }
{
    let rest = usual_heading(bytes, b"spot ", line)?;
    let (x, behind_x) = usual_place(rest)?;
    let (y, behind_y) = usual_place(behind_x)?;
    let end = behind_byte(behind_y, b'\n')?;
    let line = SpotLine { x, y };
    Some((line, end))
}

// The line of any place.
#[cold]
#[inline(never)]
#[tactic(auto, unfolding(crate::specs::ReportReading::spot_at))]
fn any_spot(bytes: &[u8], number: u64) -> Result<(SpotLine, &[u8]), ReadFault>
    ensures { spec.Gives (λ x. (x.0, x.1.now)) result (spec.spot_at number bytes.now) }
{
    let rest = heading(bytes, b"spot", LineNumber::of(number))?;
    let (x, rest) = signed_word(rest)?;
    let (y, rest) = signed_word(rest)?;
    line_end(SpotLine { x, y }, rest)
}

impl Line for SpotLine {
    ghost at = { spec.spot_at };

    ghost text = { report.spot_line };

    ghost is_lawful = { IsSpotLine };

    fn read(_: Global, line: LineNumber, bytes: &[u8]) -> Result<(SpotLine, &[u8]), ReadFault> {
        match usual_spot(bytes, line) {
            Some((spot, rest)) => Ok((spot, rest)),
            None => any_spot(bytes, line.number),
        }
    }

    fn write(&self, number: u64, out: &mut Vec<u8>) -> Result<(), AllocError> {
        write_heading(out, b"spot", number)?;
        write_place(out, self)?;
        put(out, b"\n")
    }
}

// Writes the copy and the span of a source, and the end of its line. Mostly each number has one digit: then all are put at once.
fn write_copy_and_span(out: &mut Vec<u8>, source: &SourceLine) -> Result<(), AllocError>
    ensures written { OnOk result (out.new.items ≡ out.old.items ++ (report.word source.now.copy ++ report.word source.now.top ++ report.word source.now.bottom ++ report.end)) }
    ensures lawful { OnOk result (IsSourceLine source.now) }
{
    let SourceLine {
        copy,
        top,
        bottom,
        ..
    } = *source;
    if copy < 10 && top < 10 && bottom < 10 {
        return put(
            out,
            &[
                b' ',
                b'0' + copy as u8,
                b' ',
                b'0' + top,
                b' ',
                b'0' + bottom,
                b'\n',
            ],
        );
    }
    put_blank_number(out, u64::from(copy))?;
    put_blank_number(out, u64::from(top))?;
    put_blank_number(out, u64::from(bottom))?;
    put(out, b"\n")
}

// The line of a source as most are, of one digit each but for its command, where one stands in front.
#[inline(always)]
fn usual_source(bytes: &[u8], line: LineNumber) -> Option<(SourceLine, &[u8])>
    ensures { IfSome result (λ x. spec.source_at line.number bytes.now ≡ Some (x.0, x.1.now)) }
{
    let rest = usual_heading(bytes, b"source ", line)?;
    let (file, behind_file) = short(rest)?;
    let (command, behind_command) = usual_word(behind_file)?;
    let (copy, top, bottom, end) = short_end(behind_command)?;
    let file = u32::from(file);
    let copy = u32::from(copy);
    let line = SourceLine {
        file,
        command,
        copy,
        top,
        bottom,
    };
    Some((line, end))
}

// The line of any source.
#[cold]
#[inline(never)]
#[tactic(auto, unfolding(crate::specs::ReportReading::source_at))]
fn any_source(bytes: &[u8], number: u64) -> Result<(SourceLine, &[u8]), ReadFault>
    ensures { spec.Gives (λ x. (x.0, x.1.now)) result (spec.source_at number bytes.now) }
{
    let rest = heading(bytes, b"source", LineNumber::of(number))?;
    let (file, rest) = word(rest)?;
    let (command, rest) = word(rest)?;
    let (copy, rest) = word(rest)?;
    let (top, rest) = layer(rest)?;
    let (bottom, rest) = layer(rest)?;
    let line = SourceLine {
        file,
        command,
        copy,
        top,
        bottom,
    };
    line_end(line, rest)
}

impl Line for SourceLine {
    ghost at = { spec.source_at };

    ghost text = { report.source_line };

    ghost is_lawful = { IsSourceLine };

    fn read(_: Global, line: LineNumber, bytes: &[u8]) -> Result<(SourceLine, &[u8]), ReadFault> {
        match usual_source(bytes, line) {
            Some((source, rest)) => Ok((source, rest)),
            None => any_source(bytes, line.number),
        }
    }

    fn write(&self, number: u64, out: &mut Vec<u8>) -> Result<(), AllocError> {
        write_heading(out, b"source", number)?;
        put_blank_number(out, u64::from(self.file))?;
        put_blank_number(out, u64::from(self.command))?;
        write_copy_and_span(out, self)
    }
}

// Each item takes so many bytes or more.
const LEAST_ITEM: usize = 6;

// So many items. Memory is taken once, for no more than the bytes have room for. Not inlined, so that the loop over each kind of line
// has the registers.
#[inline(never)]
fn items<T: Line>(alloc: Global, count: u64, bytes: &[u8]) -> Result<(Rows<T>, &[u8]), ReadFault>
    ensures { spec.Gives (λ x. (x.0, x.1.now)) result (spec.items_at T.at count 0 bytes.now) }
{
    let most = bytes.len() / LEAST_ITEM;
    let mut items = Rows::with_capacity(alloc, count.min(most as u64) as usize)?;
    let mut rest = bytes;
    let mut line = LineNumber::of(0);
    for _ in 0..count {
        let (item, behind) = T::read(alloc, line, rest)?;
        items.push(item)?;
        rest = behind;
        line = line.next();
    }
    Ok((items, rest))
}

/// A title, a count and so many items.
#[tactic(auto, unfolding(crate::specs::ReportReading::section_at))]
pub fn section<'a, T: Line>(
    alloc: Global,
    title: &[u8],
    bytes: &'a [u8],
) -> Result<(Rows<T>, &'a [u8]), ReadFault>
    ensures { spec.Gives (λ x. (x.0, x.1.now)) result (spec.section_at T.at title.now bytes.now) }
{
    let rest = expect(bytes, title)?;
    let (count, rest) = count(rest)?;
    items(alloc, count, rest)
}

// Writes items, each with its number.
#[tactic(auto, using(crate::proofs::Numbered::numbered_turn))]
fn write_items<T: Line>(out: &mut Vec<u8>, items: &[T]) -> Result<(), AllocError>
    ensures written { OnOk result (out.new.items ≡ out.old.items ++ report.numbered T.text 0 items.now) }
    ensures lawful { OnOk result (AllByRecursion T.is_lawful items.now) }
{
    for (number, item) in items.iter().enumerate() {
        item.write(number as u64, out)?;
    }
    Ok(())
}

/// Writes a title, a count and so many items.
pub fn write_section<T: Line>(
    out: &mut Vec<u8>,
    title: &[u8],
    items: &[T],
) -> Result<(), AllocError>
    ensures written { OnOk result (out.new.items ≡ out.old.items ++ report.section_text title.now T.text items.now) }
    ensures lawful { OnOk result (AllByRecursion T.is_lawful items.now) }
{
    write_count(out, title, items.len() as u64)?;
    write_items(out, items)
}

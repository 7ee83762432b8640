//! How many bytes at the front of a text belong together; 0 where none do.

ghost use Rattle.std.specs.Prelude.{◌≡◌, ◌<◌, ◌≤◌, length, drop, map, not};
ghost use Rattle.std.specs.Simd.Lanes.{mask_l};
ghost use Rattle.std.specs.List.{prefix_len};
ghost use Rattle.wac_parser_lexer.specs.Words as words;
ghost use Rattle.wac_parser_lexer.specs.Scan as spec;

use memchr::memchr;
use std::simd::prelude::*;

// What may follow a lower-case letter in a word.
const LOWER: u8 = 1;

// What may follow an upper-case letter in a word.
const UPPER: u8 = 2;

// For each byte a digit, whose low two bits are the flags above.
static WORD_BYTES: [u8; 256] = *b"\
    00000000000000000000000000000000\
    00000000000000003333333333000000\
    02222222222222222222222222200000\
    01111111111111111111111111100000\
    00000000000000000000000000000000\
    00000000000000000000000000000000\
    00000000000000000000000000000000\
    00000000000000000000000000000000";

fn is_lower_word_byte(b: u8) -> bool
    ensures { result ≡ words.is_lower_word_byte b }
{
    WORD_BYTES[b as usize] & LOWER != 0
}

fn is_upper_word_byte(b: u8) -> bool
    ensures { result ≡ words.is_upper_word_byte b }
{
    WORD_BYTES[b as usize] & UPPER != 0
}

/// Whether a byte is a letter, with which a word begins.
pub(crate) fn is_letter(b: u8) -> bool
    ensures { result ≡ words.is_letter b }
{
    b.is_ascii_lowercase() || b.is_ascii_uppercase()
}

fn is_version_byte(b: u8) -> bool
    ensures { result ≡ words.is_version_byte b }
{
    b.is_ascii_digit() || b.is_ascii_lowercase() || b.is_ascii_uppercase() || b == b'-' || b == b'+'
}

/// Which of 16 bytes may not follow a lower-case letter in a word, by a bit for each.
fn foreign_lanes(v: u8x16) -> u64
    ensures { result ≡ mask_l (map (λ b. not (words.is_lower_word_byte b)) v) }
{
    let no_digit = v.simd_lt(u8x16::splat(b'0')) | v.simd_ge(u8x16::splat(b'9' + 1));
    let no_lower = v.simd_lt(u8x16::splat(b'a')) | v.simd_ge(u8x16::splat(b'z' + 1));
    (no_digit & no_lower).to_bitmask()
}

/// The run at the front byte by byte.
fn lower_tail(z: &[u8]) -> usize
    ensures value { result ≡ prefix_len words.is_lower_word_byte z.now }
    ensures fits { result ≤ length z.now }
{
    z.iter().take_while(|b| is_lower_word_byte(**b)).count()
}

#[inline(always)]
fn lower_run(z: &[u8]) -> usize
    ensures value { result ≡ prefix_len words.is_lower_word_byte z.now }
    ensures fits { result ≤ length z.now }
{
    let mut at = 0;
    'lanes: while z.len() - at >= 16 {
        let foreign = foreign_lanes(u8x16::from_slice(&z[at..]));
        if foreign != 0 {
            return at + foreign.trailing_zeros() as usize;
        }
        at += 16;
    }
    at + lower_tail(&z[at..])
}

fn upper_run(z: &[u8]) -> usize
    ensures value { result ≡ prefix_len words.is_upper_word_byte z.now }
    ensures fits { result ≤ length z.now }
{
    z.iter().take_while(|b| is_upper_word_byte(**b)).count()
}

fn digits_len(z: &[u8]) -> usize
    ensures value { result ≡ prefix_len words.is_digit z.now }
    ensures fits { result ≤ length z.now }
{
    z.iter().take_while(|b| b.is_ascii_digit()).count()
}

fn version_part_len(z: &[u8]) -> usize
    ensures value { result ≡ prefix_len words.is_version_byte z.now }
    ensures fits { result ≤ length z.now }
{
    z.iter().take_while(|b| is_version_byte(**b)).count()
}

fn unquoted_len(z: &[u8]) -> usize
    ensures value { result ≡ prefix_len words.is_unquoted z.now }
    ensures fits { result ≤ length z.now }
{
    match memchr(b'"', z) {
        Some(at) => at,
        None => z.len(),
    }
}

fn line_len(z: &[u8]) -> usize
    ensures value { result ≡ prefix_len words.is_in_line z.now }
    ensures fits { result ≤ length z.now }
{
    match memchr(b'\n', z) {
        Some(at) => at,
        None => z.len(),
    }
}

#[inline(always)]
#[tactic(auto, unfolding(crate::specs::Scan::word_len))]
fn word_len(z: &[u8]) -> usize
    ensures value { result ≡ spec.word_len z.now }
    ensures fits { result ≤ length z.now }
{
    match z {
        [first, rest @ ..] if first.is_ascii_lowercase() => 1 + lower_run(rest),
        [first, rest @ ..] if first.is_ascii_uppercase() => 1 + upper_run(rest),
        _ => 0,
    }
}

#[inline(always)]
#[tactic(auto, unfolding(crate::specs::Scan::next_len))]
fn next_word_len(z: &[u8]) -> usize
    ensures value { result ≡ spec.next_len spec.word_len 45 z.now }
    ensures fits { result ≤ length z.now }
{
    match z {
        [b'-', rest @ ..] => {
            let len = word_len(rest);
            if len == 0 { 0 } else { len + 1 }
        }
        _ => 0,
    }
}

/// The length of words joined by `-`.
#[inline(always)]
pub(crate) fn label_len(z: &[u8]) -> usize
    ensures value { result ≡ spec.label_len z.now }
    ensures fits { result ≤ length z.now }
{
    let mut end = word_len(z);
    if end == 0 {
        return 0;
    }
    let mut more = next_word_len(&z[end..]);
    'parts: while more > 0 {
        end += more;
        more = next_word_len(&z[end..]);
    }
    end
}

/// The length of an identifier.
#[tactic(auto, unfolding(crate::specs::Scan::ident_len))]
pub(crate) fn ident_len(z: &[u8]) -> usize
    ensures value { result ≡ spec.ident_len z.now }
    ensures fits { result ≤ length z.now }
{
    match z {
        [b'%', rest @ ..] => {
            let len = label_len(rest);
            if len == 0 { 0 } else { len + 1 }
        }
        _ => label_len(z),
    }
}

#[tactic(auto, unfolding(crate::specs::Scan::next_len))]
fn next_ident_len(z: &[u8], joint: u8) -> usize
    ensures value { result ≡ spec.next_len spec.ident_len joint z.now }
    ensures fits { result ≤ length z.now }
{
    match z {
        [first, rest @ ..] if *first == joint => {
            let len = ident_len(rest);
            if len == 0 { 0 } else { len + 1 }
        }
        _ => 0,
    }
}

fn idents_len(z: &[u8], joint: u8) -> usize
    ensures value { result ≡ spec.idents_len joint z.now }
    ensures fits { result ≤ length z.now }
{
    let mut end = ident_len(z);
    if end == 0 {
        return 0;
    }
    let mut more = next_ident_len(&z[end..], joint);
    'parts: while more > 0 {
        end += more;
        more = next_ident_len(&z[end..], joint);
    }
    end
}

#[inline(always)]
#[tactic(auto, unfolding(crate::specs::Scan::next_len))]
fn next_idents_len(z: &[u8], joint: u8) -> usize
    ensures value { result ≡ spec.next_len (spec.idents_len joint) joint z.now }
    ensures fits { result ≤ length z.now }
{
    match z {
        [first, rest @ ..] if *first == joint => {
            let len = idents_len(rest, joint);
            if len == 0 { 0 } else { len + 1 }
        }
        _ => 0,
    }
}

/// The length of names joined by `:`, where the first of them has been measured.
#[tactic(auto, unfolding(crate::specs::Scan::names_len))]
pub(crate) fn names_len(z: &[u8], ident: usize) -> usize
    requires measured { ident ≡ spec.ident_len z.now }
    requires within { ident ≤ length z.now }
    ensures value { result ≡ spec.names_len z.now }
    ensures fits { result ≤ length z.now }
{
    let others = next_idents_len(&z[ident..], b':');
    if ident == 0 || others == 0 {
        0
    } else {
        ident + others
    }
}

/// The length of a path without its version, where its names have been measured.
#[tactic(auto, unfolding(crate::specs::Scan::path_len))]
pub(crate) fn path_len(z: &[u8], names: usize) -> usize
    requires measured { names ≡ spec.names_len z.now }
    requires within { names ≤ length z.now }
    ensures value { result ≡ spec.path_len z.now }
    ensures fits { result ≤ length z.now }
{
    let segments = next_idents_len(&z[names..], b'/');
    if names == 0 || segments == 0 {
        0
    } else {
        names + segments
    }
}

#[tactic(auto, unfolding(crate::specs::Scan::next_len))]
fn next_version_part_len(z: &[u8]) -> usize
    ensures value { result ≡ spec.next_len (prefix_len words.is_version_byte) 46 z.now }
    ensures fits { result ≤ length z.now }
{
    match z {
        [b'.', rest @ ..] => {
            let len = version_part_len(rest);
            if len == 0 { 0 } else { len + 1 }
        }
        _ => 0,
    }
}

fn version_parts_len(z: &[u8]) -> usize
    ensures value { result ≡ spec.version_parts_len z.now }
    ensures fits { result ≤ length z.now }
{
    let mut end = version_part_len(z);
    if end == 0 {
        return 0;
    }
    let mut more = next_version_part_len(&z[end..]);
    'parts: while more > 0 {
        end += more;
        more = next_version_part_len(&z[end..]);
    }
    end
}

#[tactic(auto, unfolding(crate::specs::Scan::next_len))]
fn next_version_parts_len(z: &[u8]) -> usize
    ensures value { result ≡ spec.next_len spec.version_parts_len 46 z.now }
    ensures fits { result ≤ length z.now }
{
    match z {
        [b'.', rest @ ..] => {
            let len = version_parts_len(rest);
            if len == 0 { 0 } else { len + 1 }
        }
        _ => 0,
    }
}

#[tactic(auto, unfolding(crate::specs::Scan::version_len))]
fn version_len(z: &[u8]) -> usize
    ensures value { result ≡ spec.version_len z.now }
    ensures fits { result ≤ length z.now }
{
    let digits = digits_len(z);
    if digits == 0 {
        return 0;
    }
    digits + next_version_parts_len(&z[digits..])
}

#[tactic(auto, unfolding(crate::specs::Scan::next_len))]
fn next_version_len(z: &[u8]) -> usize
    ensures value { result ≡ spec.next_len spec.version_len 64 z.now }
    ensures fits { result ≤ length z.now }
{
    match z {
        [b'@', rest @ ..] => {
            let len = version_len(rest);
            if len == 0 { 0 } else { len + 1 }
        }
        _ => 0,
    }
}

/// The length of a package name, with its version, where its names have been measured.
#[tactic(auto, unfolding(crate::specs::Scan::package_name_len))]
pub(crate) fn package_name_len(z: &[u8], names: usize) -> usize
    requires measured { names ≡ spec.names_len z.now }
    requires within { names ≤ length z.now }
    ensures value { result ≡ spec.package_name_len z.now }
    ensures fits { result ≤ length z.now }
{
    if names == 0 {
        return 0;
    }
    names + next_version_len(&z[names..])
}

/// The length of a package path, with its version, where its path has been measured.
#[tactic(auto, unfolding(crate::specs::Scan::package_path_len))]
pub(crate) fn package_path_len(z: &[u8], path: usize) -> usize
    requires measured { path ≡ spec.path_len z.now }
    requires within { path ≤ length z.now }
    ensures value { result ≡ spec.package_path_len z.now }
    ensures fits { result ≤ length z.now }
{
    if path == 0 {
        return 0;
    }
    path + next_version_len(&z[path..])
}

/// The length of a string literal, with its quotes.
#[tactic(auto, unfolding(crate::specs::Scan::string_len))]
pub(crate) fn string_len(z: &[u8]) -> usize
    ensures value { result ≡ spec.string_len z.now }
    ensures fits { result ≤ length z.now }
{
    match z {
        [b'"', rest @ ..] => {
            let len = unquoted_len(rest);
            if len < rest.len() { len + 2 } else { 0 }
        }
        _ => 0,
    }
}

/// The length of a comment to the end of its line.
#[tactic(auto, unfolding(crate::specs::Scan::line_comment_len))]
pub(crate) fn line_comment_len(z: &[u8]) -> usize
    ensures value { result ≡ spec.line_comment_len z.now }
    ensures fits { result ≤ length z.now }
{
    match z {
        [b'/', b'/', rest @ ..] => 2 + line_len(rest),
        _ => 0,
    }
}

fn opens_comment(b: u8, c: u8) -> bool
    ensures { result ≡ words.opens_comment b c }
{
    b == b'/' && c == b'*'
}

fn closes_comment(b: u8, c: u8) -> bool
    ensures { result ≡ words.closes_comment b c }
{
    b == b'*' && c == b'/'
}

/// The bytes up to the `*/` of the comment that they stand in.
fn inside_len(z: &[u8]) -> usize
    ensures value { result ≡ spec.inside_len 0 z.now }
    ensures fits { result ≤ length z.now }
{
    let mut end = 0;
    let mut more = 0usize;
    'comment: while end + 1 < z.len() {
        if opens_comment(z[end], z[end + 1]) {
            more += 1;
            end += 2;
        } else if !closes_comment(z[end], z[end + 1]) {
            end += 1;
        } else if more > 0 {
            more -= 1;
            end += 2;
        } else {
            return end + 2;
        }
    }
    0
}

/// The length of a comment between `/*` and `*/`.
#[tactic(auto, unfolding(crate::specs::Scan::block_comment_len))]
pub(crate) fn block_comment_len(z: &[u8]) -> usize
    ensures value { result ≡ spec.block_comment_len z.now }
    ensures fits { result ≤ length z.now }
{
    match z {
        [b'/', b'*', rest @ ..] => {
            let len = inside_len(rest);
            if len == 0 { 0 } else { len + 2 }
        }
        _ => 0,
    }
}

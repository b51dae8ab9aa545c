//! What stands at the front of a line, and after its keyword.
ghost use Rattle.std.specs.Prelude.{◌≡◌, ◌++◌, ◌≤◌, ◌-◌, IfOk, OnOk, [], ◌∷◌, get_or, if◌then◌else◌, length, nat_lt};
ghost use Rattle.ppm_listing.specs.declared.keyword.Keyword.TheVariants as keyword;
ghost use Rattle.ppm_listing_reader.specs.Forms.{is_absent as is_absent_token, token_at as at_place};
ghost use Rattle.ppm_notes.specs.Operands.{fits as fits_there, fitting as fitting_in, forked};
ghost use Rattle.ppm_notes.specs.Operands.{heads as heads_of, is_numbered as has_number, lead_of as lead_in};
ghost use Rattle.ppm_notes.specs.Operands.{if_leads, leading, leads as leads_of, within};
ghost use Rattle.ppm_notes.specs.Operands.{numbered as numbered_as, numbers as numbers_of};
ghost use Rattle.ppm_notes.specs.Operands.{operand_text, operands as operands_of, or_end, sorted as sorted_as};
ghost use Rattle.ppm_notes.specs.declared.wanted.Wanted.TheVariants as variants;

use crate::above::{Above, may_lead};
use crate::wanted::{Wanted, push_wanted};
use crate::words::first_word;
use ppm_explain::push_word;
use ppm_listing::Keyword;
use ppm_listing_reader::{Sort, Token, first_spelled, is_of, sorts};
use ppm_words::NoMemory;
use std::alloc::Global;

/// The keywords of the lines in a capsule, and that of the next.
const WITHIN: &[Keyword] = &[
    Keyword::Capsule,
    Keyword::Const,
    Keyword::Move,
    Keyword::Add,
    Keyword::Sub,
    Keyword::Mul,
    Keyword::Div,
    Keyword::Rem,
    Keyword::Equal,
    Keyword::NotEqual,
    Keyword::Less,
    Keyword::AtMost,
    Keyword::Len,
    Keyword::CutLeft,
    Keyword::CutRight,
    Keyword::LoadSlot,
    Keyword::StoreCur,
    Keyword::Give,
    Keyword::Get,
    Keyword::Put,
    Keyword::BranchZero,
    Keyword::BranchNonZero,
    Keyword::Room,
    Keyword::StoreNew,
    Keyword::Next,
    Keyword::End,
    Keyword::Trap,
    Keyword::Call,
    Keyword::CallTo,
    Keyword::Fork,
    Keyword::ForkTo,
];

/// The keywords of the lines that may have a form, by the line's number in its listing, from 1, and
/// by how many capsules begin above it.
fn heads(line: usize, capsules: u32) -> &'static [Keyword]
    ensures { result.now ≡ heads_of line capsules }
{
    if line == 1 {
        return &[Keyword::Ppm];
    }
    if line == 2 {
        return &[Keyword::Root];
    }
    if capsules == 0 {
        return &[Keyword::Proc, Keyword::Capsule];
    }
    WITHIN
}

/// The keyword of the form that a line has, if it has one.
pub(crate) fn lead(line: usize, capsules: u32, bytes: &[u8]) -> Option<Keyword>
    ensures { result ≡ lead_in line capsules bytes.now }
{
    first_spelled(heads(line, capsules), first_word(bytes))
}

/// Appends a keyword with which a line in a capsule may begin, by the lines above; another is left
/// out.
fn push_if_leads(kept: &mut Vec<Keyword>, above: Above, keyword: Keyword) -> Result<(), NoMemory>
    ensures { OnOk result (kept.new.items ≡ kept.old.items ++ if_leads above keyword) }
{
    if may_lead(above, keyword) {
        kept.push(keyword)?;
        return Ok(());
    }
    Ok(())
}

/// The keywords with which a line in a capsule may begin, by the lines above.
fn leads_within(alloc: Global, above: Above) -> Result<Vec<Keyword>, NoMemory>
    ensures { IfOk result (λ kept. kept.items ≡ leading above within) }
{
    let mut kept = Vec::new(alloc);
    let mut left = WITHIN;
    'keywords: while let Some((keyword, rest)) = left.split_first() {
        push_if_leads(&mut kept, above, *keyword)?;
        left = rest;
    }
    Ok(kept)
}

/// The keywords with which a line of a procedure or of the first capsule may begin, by the line's
/// number and the root's procedure.
fn leads_above(alloc: Global, line: usize, root: u64) -> Result<Vec<Keyword>, NoMemory>
    ensures { IfOk result (λ kept. kept.items
        ≡ (if nat_lt root (line - 3) then keyword.Proc ∷ keyword.Capsule ∷ [] else keyword.Proc ∷ [])) }
{
    let mut kept = Vec::new(alloc);
    kept.push(Keyword::Proc)?;
    if root < line.saturating_sub(3) as u64 {
        kept.push(Keyword::Capsule)?;
        return Ok(kept);
    }
    Ok(kept)
}

/// One keyword.
fn only(alloc: Global, lead: Keyword) -> Result<Vec<Keyword>, NoMemory>
    ensures { IfOk result (λ kept. kept.items ≡ lead ∷ []) }
{
    let mut kept = Vec::new(alloc);
    kept.push(lead)?;
    Ok(kept)
}

/// The keywords with which a line of a listing may begin, by its number, from 1, by how many
/// capsules begin above it, and by what the lines above say.
pub(crate) fn leads(
    alloc: Global,
    line: usize,
    capsules: u32,
    above: Above,
) -> Result<Vec<Keyword>, NoMemory>
    ensures { IfOk result (λ leads. leads.items ≡ leads_of line capsules above) }
{
    if line == 1 {
        return only(alloc, Keyword::Ppm);
    }
    if line == 2 {
        return only(alloc, Keyword::Root);
    }
    if capsules == 0 {
        return leads_above(alloc, line, above.root);
    }
    leads_within(alloc, above)
}

/// Appends words of these sorts.
fn push_sorted(wanted: &mut Vec<Wanted>, sorts: &[Sort]) -> Result<(), NoMemory>
    ensures { OnOk result (wanted.new.items ≡ wanted.old.items ++ sorted_as sorts.now) }
{
    let mut left = sorts;
    'sorts: while let Some((sort, rest)) = left.split_first() {
        wanted.push(Wanted::Word(*sort))?;
        left = rest;
    }
    Ok(())
}

/// Words of these sorts.
fn sorted(alloc: Global, sorts: &[Sort]) -> Result<Vec<Wanted>, NoMemory>
    ensures { IfOk result (λ wanted. wanted.items ≡ sorted_as sorts.now) }
{
    let mut wanted = Vec::new(alloc);
    push_sorted(&mut wanted, sorts)?;
    Ok(wanted)
}

/// Words of these sorts, of which the first is this number.
fn numbered(alloc: Global, number: u64, sorts: &[Sort]) -> Result<Vec<Wanted>, NoMemory>
    ensures { IfOk result (λ wanted. wanted.items ≡ numbered_as number sorts.now) }
{
    let mut wanted = Vec::new(alloc);
    match sorts.split_first() {
        None => Ok(wanted),
        Some((_, rest)) => {
            wanted.push(Wanted::Number(number))?;
            push_sorted(&mut wanted, rest)?;
            Ok(wanted)
        }
    }
}

/// A number for each token, and one more.
fn numbers(alloc: Global, tokens: &[Token]) -> Result<Vec<Wanted>, NoMemory>
    ensures { IfOk result (λ wanted. wanted.items ≡ numbers_of tokens.now) }
{
    let mut wanted = Vec::new(alloc);
    let mut left = tokens;
    'tokens: while let Some((_, rest)) = left.split_first() {
        wanted.push(Wanted::Word(Sort::Number))?;
        left = rest;
    }
    wanted.push(Wanted::Word(Sort::Number))?;
    Ok(wanted)
}

/// The token of a fork's left slot.
fn left_slot(tokens: &[Token]) -> Token
    ensures { result ≡ at_place tokens.now 3 }
{
    match tokens.get(3) {
        Some(token) => *token,
        None => Token::Other,
    }
}

/// Whether it names no slot.
fn is_absent(token: Token) -> bool
    ensures { result ≡ is_absent_token token }
{
    matches!(token, Token::Absent)
}

/// What stands after `forkto`, by whether it names no left slot.
fn fork_operands(alloc: Global, no_left: bool) -> Result<Vec<Wanted>, NoMemory>
    ensures { IfOk result (λ wanted. wanted.items ≡ forked no_left) }
{
    if no_left {
        sorted(
            alloc,
            &[
                Sort::Number,
                Sort::Number,
                Sort::Number,
                Sort::Slot,
                Sort::Number,
            ],
        )
    } else {
        sorted(alloc, sorts(Keyword::ForkTo))
    }
}

/// What stands after a keyword in a line with this number, from 1, where so many capsules begin
/// above it and the line has these tokens.
pub(crate) fn operands(
    alloc: Global,
    line: usize,
    capsules: u32,
    keyword: Keyword,
    tokens: &[Token],
) -> Result<Vec<Wanted>, NoMemory>
    ensures { IfOk result (λ wanted. wanted.items ≡ operands_of line capsules keyword tokens.now) }
{
    match keyword {
        Keyword::Root => numbers(alloc, tokens),
        Keyword::Proc => numbered(alloc, line.saturating_sub(3) as u64, sorts(Keyword::Proc)),
        Keyword::Capsule => numbered(alloc, u64::from(capsules), sorts(Keyword::Capsule)),
        Keyword::ForkTo => fork_operands(alloc, is_absent(left_slot(tokens))),
        Keyword::Ppm
        | Keyword::Slots
        | Keyword::Entry
        | Keyword::Const
        | Keyword::Move
        | Keyword::Add
        | Keyword::Sub
        | Keyword::Mul
        | Keyword::Div
        | Keyword::Rem
        | Keyword::Equal
        | Keyword::NotEqual
        | Keyword::Less
        | Keyword::AtMost
        | Keyword::Len
        | Keyword::CutLeft
        | Keyword::CutRight
        | Keyword::LoadSlot
        | Keyword::StoreCur
        | Keyword::Give
        | Keyword::Get
        | Keyword::Put
        | Keyword::BranchZero
        | Keyword::BranchNonZero
        | Keyword::Room
        | Keyword::StoreNew
        | Keyword::Next
        | Keyword::End
        | Keyword::Trap
        | Keyword::Call
        | Keyword::CallTo
        | Keyword::Fork => sorted(alloc, sorts(keyword)),
    }
}

/// Whether a token is this number.
fn is_numbered(number: u64, token: Token) -> bool
    ensures { result ≡ has_number number token }
{
    match token {
        Token::Number(value) => value == number,
        Token::Name(_) | Token::Register(_) | Token::Negative(_) | Token::Absent | Token::Other =>
            false,
    }
}

/// Whether a token may stand where a word is wanted.
fn fits(wanted: Wanted, token: Token) -> bool
    ensures { result ≡ fits_there wanted token }
{
    match wanted {
        Wanted::Word(sort) => is_of(sort, token),
        Wanted::Number(number) => is_numbered(number, token),
        Wanted::End => false,
    }
}

/// How many tokens stand where they are wanted, in front of the first that does not.
pub(crate) fn fitting(wanted: &[Wanted], tokens: &[Token]) -> usize
    ensures value { result ≡ fitting_in wanted.now tokens.now }
    ensures few { result ≤ length wanted.now }
{
    let mut ahead = wanted;
    let mut left = tokens;
    let mut count = 0;
    'words: while let Some((first, others)) = ahead.split_first() {
        match left.split_first() {
            None => return count,
            Some((token, rest)) => {
                if !fits(*first, *token) {
                    return count;
                }
                ahead = others;
                left = rest;
                count += 1;
            }
        }
    }
    count
}

/// What is said of the end of a line after so many words: that of the root may end after one.
fn end_word(keyword: Keyword, count: usize) -> &'static str
    ensures { result.now ≡ or_end keyword count }
{
    if count == 0 {
        return "";
    }
    match keyword {
        Keyword::Root => ", the end of the line",
        Keyword::Ppm
        | Keyword::Proc
        | Keyword::Slots
        | Keyword::Entry
        | Keyword::Capsule
        | Keyword::Const
        | Keyword::Move
        | Keyword::Add
        | Keyword::Sub
        | Keyword::Mul
        | Keyword::Div
        | Keyword::Rem
        | Keyword::Equal
        | Keyword::NotEqual
        | Keyword::Less
        | Keyword::AtMost
        | Keyword::Len
        | Keyword::CutLeft
        | Keyword::CutRight
        | Keyword::LoadSlot
        | Keyword::StoreCur
        | Keyword::Give
        | Keyword::Get
        | Keyword::Put
        | Keyword::BranchZero
        | Keyword::BranchNonZero
        | Keyword::Room
        | Keyword::StoreNew
        | Keyword::Next
        | Keyword::End
        | Keyword::Trap
        | Keyword::Call
        | Keyword::CallTo
        | Keyword::Fork
        | Keyword::ForkTo => "",
    }
}

/// What is wanted after so many words.
fn wanted_at(wanted: &[Wanted], count: usize) -> Wanted
    ensures { result ≡ get_or wanted.now count variants.End }
{
    match wanted.get(count) {
        Some(wanted) => *wanted,
        None => Wanted::End,
    }
}

/// Appends what could stand after a keyword and so many fitting words.
pub(crate) fn push_operand(
    text: &mut Vec<u8>,
    keyword: Keyword,
    wanted: &[Wanted],
    count: usize,
) -> Result<(), NoMemory>
    ensures { OnOk result (text.new.items
        ≡ text.old.items ++ operand_text keyword wanted.now count) }
{
    push_wanted(text, wanted_at(wanted, count))?;
    push_word(text, end_word(keyword, count))
}

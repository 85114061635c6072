ghost use Rattle.std.specs.Prelude.{ℕ, ◌≡◌, ◌==◌, ◌≤◌, ◌++◌, List, [], ◌∷◌, length, map, codes, find, All, Some, IfSome, IsSomeAnd, Bool, Option};
ghost use Rattle.std.specs.List.{position_or_len};
ghost use Rattle.std.specs.Str.{bytes_eq};
ghost use Rattle.routine_kit.specs.declared.line.Line.{Line};
ghost use Rattle.routine_kit.specs.declared.line.Line.TheVariants.{Plus, Skip, Act};
ghost use Rattle.routine_kit.specs.declared.operand.Operand.{Operand};
ghost use Rattle.routine_kit.specs.declared.shape.Shape.{Shape};
ghost use Rattle.routine_kit.specs.declared.token.Token.{Token};
ghost use Rattle.routine_kit.specs.declared.token.Token.TheVariants.{Value};
ghost use Rattle.routine_kit.specs.Line.{operands_of, IsLine};
ghost use Rattle.routine_kit.specs.LineOf.{line_of};
ghost use Rattle.routine_kit.specs.LineText.{tokens_text, IsToken, shape_verb, line_verb, line_tokens, into_tokens, shapes, IsLineText};

use crate::token::{Token, read_token};
use crate::{Line, Operand, Shape};
use arrayvec::ArrayVec;
use surw_base::LINES;

// The most tokens behind a verb.
const TOKENS: usize = 5;

/// The line that a whole text writes: an event with a number or a register `r0` to `r3` in each place, and maybe
/// the reply's register, as `store 0 r1` or `load 0 -> r0`; `plus r0 1`; or `skip 2 if r0 = 1` or `skip 2 if
/// r0 != r1` with at most `LINES` lines. One space stands between two tokens. None exactly where it writes none.
pub fn read_line(text: &[u8]) -> Option<Line>
    ensures same { result ≡ line_of text.now }
    ensures found { IfSome result (IsLineText text.now) }
    ensures only { (line : Line) → IsLineText text.now line → result ≡ Some line }
{
    let (verb, rest) = text.split_at(token_len(text));
    match read_tokens(rest) {
        None => None,
        Some(tokens) => line_of(verb, tokens.as_slice()),
    }
}

// How many bytes stand before the first space.
fn token_len(text: &[u8]) -> usize
    ensures place { result ≡ position_or_len (λ byte. byte == 32) text.now }
    ensures within { result ≤ length text.now }
{
    let mut len = 0;
    while len < text.len() && text[len] != b' ' {
        len += 1;
    }
    len
}

// The tokens that a whole text writes, each behind a space.
fn read_tokens(text: &[u8]) -> Option<ArrayVec<Token, TOKENS>>
    ensures found { IfSome result (λ tokens. (text.now ≡ tokens_text tokens.items) × All IsToken tokens.items) }
    ensures only { (tokens : List Token) → text.now ≡ tokens_text tokens → All IsToken tokens → length tokens ≤ TOKENS →
        IsSomeAnd result (λ read. read.items ≡ tokens) }
{
    let mut tokens = ArrayVec::new();
    let mut rest = text;
    while !rest.is_empty() {
        if rest[0] != b' ' || tokens.is_full() {
            return None;
        }
        let (_, after) = rest.split_at(1);
        let (token, behind) = after.split_at(token_len(after));
        match read_token(token) {
            None => return None,
            Some(token) => tokens.push(token),
        }
        rest = behind;
    }
    Some(tokens)
}

// The line with this verb and these tokens.
fn line_of(verb: &[u8], tokens: &[Token]) -> Option<Line>
    requires { All IsToken tokens.now }
    ensures found { IfSome result (λ line. (verb.now ≡ line_verb line) × (tokens.now ≡ line_tokens line) × IsLine line) }
    ensures only { (line : Line) → verb.now ≡ line_verb line → tokens.now ≡ line_tokens line → IsLine line → result ≡ Some line }
{
    match verb {
        b"plus" => plus_of(tokens),
        b"skip" => skip_of(tokens),
        _ => act_of(verb, tokens),
    }
}

// `plus` with these tokens.
fn plus_of(tokens: &[Token]) -> Option<Line>
    requires { All IsToken tokens.now }
    ensures found { IfSome result (λ line. (codes "plus" ≡ line_verb line) × (tokens.now ≡ line_tokens line) × IsLine line) }
    ensures only { (reg : ℕ) (by : Operand) → tokens.now ≡ line_tokens (Plus reg by) → result ≡ Some (Plus reg by) }
{
    match tokens {
        [Token::Value(Operand::Reg(reg)), Token::Value(by)] => Some(Line::Plus {
            reg: *reg,
            by: *by,
        }),
        _ => None,
    }
}

// `skip` with these tokens.
fn skip_of(tokens: &[Token]) -> Option<Line>
    requires { All IsToken tokens.now }
    ensures found { IfSome result (λ line. (codes "skip" ≡ line_verb line) × (tokens.now ≡ line_tokens line) × IsLine line) }
    ensures only { (over reg : ℕ) (equal : Bool) (with : Operand) → tokens.now ≡ line_tokens (Skip over reg equal with) → over ≤ LINES →
        result ≡ Some (Skip over reg equal with) }
{
    match tokens {
        [
            Token::Value(Operand::Num(over)),
            Token::If,
            Token::Value(Operand::Reg(reg)),
            sign,
            Token::Value(with),
        ] => {
            if *over > LINES as u64 {
                return None;
            }
            let equal = match sign {
                Token::Equal => true,
                Token::Unequal => false,
                _ => return None,
            };
            Some(Line::Skip {
                over: *over as u16,
                reg: *reg,
                equal,
                with: *with,
            })
        }
        _ => None,
    }
}

// The event line with this verb and these tokens.
fn act_of(verb: &[u8], tokens: &[Token]) -> Option<Line>
    requires { All IsToken tokens.now }
    ensures found { IfSome result (λ line. (verb.now ≡ line_verb line) × (tokens.now ≡ line_tokens line) × IsLine line) }
    ensures only { (shape : Shape) (into : Option ℕ) → verb.now ≡ shape_verb shape → tokens.now ≡ line_tokens (Act shape into) →
        result ≡ Some (Act shape into) }
{
    let (operands, into) = reply_of(tokens);
    match shape_of(verb, operands) {
        None => None,
        Some(shape) => Some(Line::Act { shape, into }),
    }
}

// The tokens before the arrow, and the register behind it, if there is one.
fn reply_of(tokens: &[Token]) -> (&[Token], Option<u8>)
    ensures found { tokens.now ≡ result.0.now ++ into_tokens result.1 }
    ensures only { (operands : List Operand) (into : Option ℕ) → tokens.now ≡ map Value operands ++ into_tokens into →
        (result.0.now ≡ map Value operands) × (result.1 ≡ into) }
{
    match tokens {
        [operands @ .., Token::Arrow, Token::Value(Operand::Reg(reg))] => (operands, Some(*reg)),
        _ => (tokens, None),
    }
}

// The shape with this verb and these operands.
fn shape_of(verb: &[u8], operands: &[Token]) -> Option<Shape>
    ensures found { IfSome result (λ shape. (verb.now ≡ shape_verb shape) × (operands.now ≡ map Value (operands_of shape))) }
    ensures only { (shape : Shape) → verb.now ≡ shape_verb shape → operands.now ≡ map Value (operands_of shape) → result ≡ Some shape }
{
    match operands {
        [] => no_operand(verb),
        [Token::Value(x)] => one_operand(verb, *x),
        [Token::Value(x), Token::Value(y)] => two_operands(verb, *x, *y),
        [Token::Value(x), Token::Value(y), Token::Value(z)] => three_operands(verb, *x, *y, *z),
        _ => None,
    }
}

// The shape with this verb and no operand.
fn no_operand(verb: &[u8]) -> Option<Shape>
    ensures first { result ≡ find (λ shape. bytes_eq (shape_verb shape) verb.now) (shapes []) }
    ensures found { IfSome result (λ shape. (verb.now ≡ shape_verb shape) × (operands_of shape ≡ [])) }
{
    with_verb(verb, &[Shape::Oldest, Shape::Reserve, Shape::Durable])
}

// The shape with this verb and one operand.
fn one_operand(verb: &[u8], x: Operand) -> Option<Shape>
    ensures first { result ≡ find (λ shape. bytes_eq (shape_verb shape) verb.now) (shapes (x ∷ [])) }
    ensures found { IfSome result (λ shape. (verb.now ≡ shape_verb shape) × (operands_of shape ≡ x ∷ [])) }
{
    with_verb(
        verb,
        &[
            Shape::Acquire { l: x },
            Shape::Release { l: x },
            Shape::Load { c: x },
            Shape::Find { p: x },
            Shape::Claim { p: x },
            Shape::Read { f: x },
            Shape::Stamp { f: x },
            Shape::Flush { f: x },
            Shape::Mark { n: x },
        ],
    )
}

// The shape with this verb and two operands.
fn two_operands(verb: &[u8], x: Operand, y: Operand) -> Option<Shape>
    ensures first { result ≡ find (λ shape. bytes_eq (shape_verb shape) verb.now) (shapes (x ∷ y ∷ [])) }
    ensures found { IfSome result (λ shape. (verb.now ≡ shape_verb shape) × (operands_of shape ≡ x ∷ y ∷ [])) }
{
    with_verb(
        verb,
        &[
            Shape::Store { c: x, v: y },
            Shape::Add { c: x, v: y },
            Shape::Fill { f: x, p: y },
            Shape::Put { s: x, v: y },
            Shape::Check { a: x, b: y },
        ],
    )
}

// The shape with this verb and three operands.
fn three_operands(verb: &[u8], x: Operand, y: Operand, z: Operand) -> Option<Shape>
    ensures first { result ≡ find (λ shape. bytes_eq (shape_verb shape) verb.now) (shapes (x ∷ y ∷ z ∷ [])) }
    ensures found { IfSome result (λ shape. (verb.now ≡ shape_verb shape) × (operands_of shape ≡ x ∷ y ∷ z ∷ [])) }
{
    with_verb(
        verb,
        &[
            Shape::SwapIf { c: x, a: y, b: z },
            Shape::Write { f: x, v: y, n: z },
        ],
    )
}

// The first of the shapes that has this verb.
fn with_verb(verb: &[u8], shapes: &[Shape]) -> Option<Shape>
    ensures { result ≡ find (λ shape. bytes_eq (shape_verb shape) verb.now) shapes.now }
{
    for shape in shapes {
        if shape.verb() == verb {
            return Some(*shape);
        }
    }
    None
}

#[cfg(test)]
mod tests;

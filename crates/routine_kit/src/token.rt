ghost use Rattle.std.specs.Prelude.{◌≡◌, Some, IfSome};
ghost use Rattle.routine_kit.specs.declared.token.Token.{Token};
ghost use Rattle.routine_kit.specs.LineText.{token_text, IsToken};

use crate::Operand;
use surw_base::read_whole_number;

// A token of a line behind its verb.
#[derive(Clone, Copy, Debug, Default, PartialEq, Eq)]
pub(crate) enum Token {
    Value(Operand),
    #[default]
    If,
    Equal,
    Unequal,
    Arrow,
}

// The token that a whole text writes.
pub(crate) fn read_token(text: &[u8]) -> Option<Token>
    ensures found { IfSome result (λ token. (text.now ≡ token_text token) × IsToken token) }
    ensures only { (token : Token) → text.now ≡ token_text token → IsToken token → result ≡ Some token }
{
    match text {
        b"if" => Some(Token::If),
        b"=" => Some(Token::Equal),
        b"!=" => Some(Token::Unequal),
        b"->" => Some(Token::Arrow),
        [b'r', digit @ b'0'..=b'3'] => Some(Token::Value(Operand::Reg(*digit - b'0'))),
        _ => {
            let number = read_whole_number(text)?;
            Some(Token::Value(Operand::Num(number)))
        }
    }
}

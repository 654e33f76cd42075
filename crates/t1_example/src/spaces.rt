//! A caller of `t1_char`.

ghost use Rattle.std.specs.Prelude.{◌≡◌, ◌∷◌, [], pos, IfOk, IfErr};
ghost use Rattle.t1_char.specs.{declared.spelling.CharFault.TheVariants.{Memory}, declared.token.Command.TheVariants.{Hsbw, Endchar}};
ghost use Rattle.t1_char.specs.{declared.token.Token.TheVariants.{Num, Cmd}, Tokens.{tokens}};

use std::alloc::Global;
use t1_char::{CharFault, Command, Token, write};

/// The charstring of a glyph that draws nothing and has this width, in charstring units.
pub fn space(alloc: Global, width: i32) -> Result<Vec<u8>, CharFault>
    ensures spells { IfOk result (λ v. tokens v.items ≡ Num (pos 0) ∷ Num width ∷ Cmd Hsbw ∷ Cmd Endchar ∷ []) }
    ensures refused { IfErr result (λ e. e ≡ Memory) }
{
    let space = [
        Token::Num(0),
        Token::Num(width),
        Token::Cmd(Command::Hsbw),
        Token::Cmd(Command::Endchar),
    ];
    write(alloc, &space)
}

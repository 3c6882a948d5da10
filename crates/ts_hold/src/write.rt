//! Writing rules.
ghost use Rattle.std.specs.Prelude.{◌≡◌, ◌<◌, ◌++◌, IfOk, flat_map};
ghost use Rattle.ts_name.specs.Paths.{upper_hex_digit};
ghost use Rattle.ts_model.specs.Texts.{rule_line, symbol_text};

use crate::symbols::is_in_digits;
use std::alloc::AllocError;
use ts_model::hold::{Rule, Symbol};

fn upper_digit(value: u8) -> u8
    requires { value < 16 }
    ensures { result ≡ upper_hex_digit value }
{
    if value < 10 {
        b'0' + value
    } else {
        b'A' - 10 + value
    }
}

fn push_symbol(symbol: Symbol, out: &mut Vec<u8>) -> Result<(), AllocError>
    ensures { IfOk result (λ _. out.new.items ≡ out.old.items ++ symbol_text symbol) }
{
    match symbol {
        Symbol::Star => out.push(b'*')?,
        Symbol::Byte(byte) => {
            if byte == b'*' || is_in_digits(byte) {
                out.push(b'%')?;
                out.push(upper_digit(byte / 16))?;
                out.push(upper_digit(byte % 16))?;
            } else {
                out.push(byte)?;
            }
        }
    }
    Ok(())
}

fn push_pattern(pattern: &[Symbol], out: &mut Vec<u8>) -> Result<(), AllocError>
    ensures { IfOk result (λ _. out.new.items ≡ out.old.items ++ flat_map symbol_text pattern.now) }
{
    for symbol in pattern {
        push_symbol(*symbol, out)?;
    }
    Ok(())
}

/// Appends the line of a rule, without a line feed. After an error a beginning of it may be there.
pub fn push_rule(rule: &Rule, out: &mut Vec<u8>) -> Result<(), AllocError>
    ensures { IfOk result (λ _. out.new.items ≡ out.old.items ++ rule_line rule.now) }
{
    match rule {
        Rule::OnePath(path) => {
            out.extend_from_slice(b"path ")?;
            path.write_text(out)
        }
        Rule::LastName(pattern) => {
            out.extend_from_slice(b"name ")?;
            push_pattern(pattern.as_slice(), out)
        }
    }
}

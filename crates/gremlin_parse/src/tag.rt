ghost use Rattle.std.specs.Prelude.{IfErr, IfOk};
ghost use Rattle.gremlin_parse.specs.Stopping.{StopsWith};
ghost use Rattle.gremlin_parse.specs.Tags.{LeavesSession, LeavesTag, ReadsSession, ReadsTag};

use crate::parts::skip_blanks;
use crate::stop::Stop;

/// The session that a line names, and the bytes after that; or none, and the whole line.
///
/// # Errors
/// A fault of syntax after an `@` or a session that no more of a name of a session follows.
pub(crate) fn read_tag(line: &[u8]) -> Result<(Option<u8>, &[u8]), Stop>
    ensures ok { IfOk result (λ found. ReadsTag line.now found.0 found.1.now) }
    ensures err { IfErr result (StopsWith (LeavesTag line.now)) }
{
    match skip_blanks(line) {
        [b'@', after @ ..] => {
            let (session, rest) = read_session(after)?;
            Ok((Some(session), rest))
        }
        _ => Ok((None, line)),
    }
}

/// The session whose digit stands first, and the bytes after the blank that follows it.
///
/// # Errors
/// A fault of syntax where no such digit stands, or no blank after it.
fn read_session(bytes: &[u8]) -> Result<(u8, &[u8]), Stop>
    ensures ok { IfOk result (λ found. ReadsSession bytes.now found.0 found.1.now) }
    ensures err { IfErr result (StopsWith (LeavesSession bytes.now)) }
{
    let [digit @ b'0'..=b'7', after @ ..] = bytes else {
        return Err(Stop::Syntax { left: bytes.len() });
    };
    let [b' ' | b'\t', rest @ ..] = after else {
        return Err(Stop::Syntax { left: after.len() });
    };
    Ok((*digit - b'0', rest))
}

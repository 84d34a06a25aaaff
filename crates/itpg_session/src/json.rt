//! Lines of JSON: what the object of one asks for, as the reading of a plain line.
ghost use Rattle.std.specs.Prelude.{◌≡◌, ◌≤◌, length, Result, IfOk, IsErr, IsFalse};
ghost use Rattle.std.specs.List.{list_all};
ghost use Rattle.script_lex.specs.Bytes.{is_blank};
ghost use Rattle.edit_reader.specs.declared.reading.TheConstants.{MAX_LINE};
ghost use Rattle.edit_reader.specs.Faults.{without_end};
ghost use Rattle.edit_reader.specs.Readings.{Reading, reading_of, told as read_as};
ghost use Rattle.edit_reader.specs.Moments.{AsksOfMoments};
ghost use Rattle.itpg_base.specs.declared.text_code.TextCode.{TextCode};
ghost use Rattle.json_port.specs.declared.line.JsonLine.{JsonLine};
ghost use Rattle.json_port.specs.Lines.{JsonOf};
ghost use Rattle.itpg_session.specs.Lines.{JsonAsks, HasJsonMoments};

use edit_reader::{Line, read_line};
use itpg_base::TextCode;
use itpg_edit::Edit;
use json_port::{JsonFault, JsonLine, law_of_json_lines, read_json};
use std::alloc::{AllocError, Global};

/// The object that a line of JSON is, or the line's own first fault.
///
/// # Errors
///
/// If memory runs out: never for a line that is blank or too long.
pub(crate) fn read_object(
    alloc: Global,
    line: &[u8],
) -> Result<Result<JsonLine, TextCode>, AllocError>
    ensures line { IfOk result (JsonOf line.now) }
    ensures only { IfOk result (λ json. (other : Result JsonLine TextCode) → JsonOf line.now other → json ≡ other) }
    ensures moments { IfOk result HasJsonMoments }
    ensures blank { IsErr result → IsFalse (list_all is_blank (without_end line.now)) }
    ensures fits { IsErr result → length (without_end line.now) ≤ MAX_LINE }
{
    law_of_json_lines();
    match read_json(alloc, line) {
        Ok(json) => Ok(Ok(json)),
        Err(JsonFault::Bad(code)) => Ok(Err(code)),
        Err(JsonFault::Memory) => Err(AllocError),
    }
}

/// What the object asks for, or its fault, or that of the plain line in it. The edit of a plain line is written into `room`.
pub(crate) fn asked_by<'a>(
    json: &'a Result<JsonLine, TextCode>,
    room: &'a mut Edit,
) -> Result<Line<'a>, TextCode>
    requires { HasJsonMoments json.now }
    ensures line { JsonAsks json.now (read_as result) }
    ensures only { (other : Result Reading TextCode) → JsonAsks json.now other → other ≡ read_as result }
    ensures moments { IfOk result (λ line. AsksOfMoments (reading_of line)) }
{
    match json {
        Ok(JsonLine::Blank) => Ok(Line::Blank),
        Ok(JsonLine::Edit(edit)) => Ok(Line::Edit(edit)),
        Ok(JsonLine::Text(text)) => read_line(text.bytes(), room),
        Err(code) => Err(*code),
    }
}

//! What is proved of the definitions alone. No program calls this function: its contract is the law.

ghost use Rattle.std.specs.Prelude.{ℕ, List, Result};
ghost use Rattle.json.specs.Json.{Json};
ghost use Rattle.text_places.specs.declared.place.Units.{Units};
ghost use Rattle.editor_messages.specs.declared.error.ReplyError.{ReplyError};
ghost use Rattle.editor_session.specs.Answers.{IsFormatting};
ghost use Rattle.editor_session.specs.Laws.{MakesFormat};

/// AN EDITOR GETS THE FORMAT: the edits that answer it make the text of its document the format of that text, if it reads
/// their places as the protocol has them. There are none if the text has no format, or is its own.
pub fn editors_get_the_format()
    ensures { (units : Units) (text : List ℕ) (answer : Result Json ReplyError)
        → IsFormatting units text answer → MakesFormat units text answer }
{}

// The functions that C and Rust call (include/crsf.h), in the archive libcrsf.a: each is that of crsf, under the same clauses.
#![tactic(auto)]

ghost use Rattle.images.specs.Record.{record_from};
ghost use Rattle.images.specs.Word.{WritesOut};
ghost use Rattle.crsf.specs.Handed.{ReadsOut, TextOut, AckOut, PopupOut, FieldsOut};
ghost use Rattle.edits.specs.Edit.{edit_command};
ghost use Rattle.crsf.specs.Edit.{EditsOut, ListsOut};
ghost use Rattle.std.specs.Prelude.{◌≡◌};
ghost use Rattle.crsf.specs.Log.{ReplaysOut};
ghost use Rattle.families.specs.Ack.{ack_with};
ghost use Rattle.crsf.specs.Question.{asking, returning, commanding, CallsOut};
ghost use Rattle.crc.specs.Check.{command_polynomial, check_from};

#[unsafe(no_mangle)]
pub extern "C" fn crsf_check(bytes: &[u8], start: u8) -> u8
    ensures { result ≡ check_from command_polynomial start bytes.now }
{
    crsf::crsf_check(bytes, start)
}

#[unsafe(no_mangle)]
pub extern "C" fn crsf_read(payload: &[u8], image: &mut [u8]) -> u32
    ensures { ReadsOut payload.now result image.old image.new }
{
    crsf::command::crsf_read(payload, image)
}

#[unsafe(no_mangle)]
pub extern "C" fn crsf_write(image: &[u8], buffer: &mut [u8]) -> u32
    ensures { WritesOut (record_from image.now) result buffer.old buffer.new }
{
    crsf::command::crsf_write(image, buffer)
}

#[unsafe(no_mangle)]
pub extern "C" fn crsf_edit(payload: &mut [u8], field: u32, number: u32) -> u32
    ensures { EditsOut (edit_command payload.old field number) result payload.old payload.new }
{
    crsf::edit::crsf_edit(payload, field, number)
}

#[unsafe(no_mangle)]
pub extern "C" fn crsf_edit_list(payload: &mut [u8], edits: &[u8], answers: &mut [u8]) -> u32
    ensures { ListsOut edits.now result payload.old payload.new
        answers.old answers.new }
{
    crsf::edit::crsf_edit_list(payload, edits, answers)
}

#[unsafe(no_mangle)]
pub extern "C" fn crsf_replay(
    replay: &mut [u8],
    position: u32,
    block: &[u8],
    event: &mut [u8],
) -> u32
    ensures { ReplaysOut position block.now result replay.old replay.new
        event.old event.new }
{
    crsf::log::crsf_replay(replay, position, block, event)
}

#[unsafe(no_mangle)]
pub extern "C" fn crsf_text(bytes: &[u8], text: &mut [u8]) -> u32
    ensures { TextOut bytes.now result text.old text.new }
{
    crsf::made::crsf_text(bytes, text)
}

#[unsafe(no_mangle)]
pub extern "C" fn crsf_ack(
    command_id: u8,
    sub_command_id: u8,
    action: u8,
    information: &[u8],
    ack: &mut [u8],
) -> u32
    ensures { AckOut (ack_with command_id sub_command_id action) information.now result
        ack.old ack.new }
{
    crsf::made::crsf_ack(command_id, sub_command_id, action, information, ack)
}

#[unsafe(no_mangle)]
pub extern "C" fn crsf_popup(fields: &[u8], popup: &mut [u8]) -> u32
    ensures { PopupOut fields.now result popup.old popup.new }
{
    crsf::made::crsf_popup(fields, popup)
}

#[unsafe(no_mangle)]
pub extern "C" fn crsf_popup_fields(popup: &[u8], fields: &mut [u8]) -> u32
    ensures { FieldsOut popup.now result fields.old fields.new }
{
    crsf::made::crsf_popup_fields(popup, fields)
}

#[unsafe(no_mangle)]
pub extern "C" fn crsf_question_ask(image: &mut [u8], second: u32, popup: &[u8]) -> u32
    ensures { CallsOut (asking second popup.now) result image.old image.new }
{
    crsf::question::crsf_question_ask(image, second, popup)
}

#[unsafe(no_mangle)]
pub extern "C" fn crsf_question_return(
    image: &mut [u8],
    second: u32,
    value: u8,
    response: u8,
) -> u32
    ensures { CallsOut (returning second value response) result image.old image.new }
{
    crsf::question::crsf_question_return(image, second, value, response)
}

#[unsafe(no_mangle)]
pub extern "C" fn crsf_question_command(image: &mut [u8], second: u32, command: &[u8]) -> u32
    ensures { CallsOut (commanding second command.now) result image.old image.new }
{
    crsf::question::crsf_question_command(image, second, command)
}

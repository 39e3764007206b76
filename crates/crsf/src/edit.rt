// Edits of a payload in place: one, and a list of them.
ghost use Rattle.edits.specs.Edit.{edit_command};
ghost use Rattle.crsf.specs.Edit.{EditsOut, ListsOut};

pub fn crsf_edit(payload: &mut [u8], field: u32, number: u32) -> u32
    ensures { EditsOut (edit_command payload.old field number) result payload.old payload.new }
{
    edits::edit(payload, field, number) as u32
}

pub fn crsf_edit_list(payload: &mut [u8], edits: &[u8], answers: &mut [u8]) -> u32
    ensures { ListsOut edits.now result payload.old payload.new
        answers.old answers.new }
{
    edits::edit_list(payload, edits, answers) as u32
}

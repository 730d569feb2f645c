// Laws of reading, each held by the contract of a function.
ghost use Rattle.texts.specs.Form.{AcceptedTexts};
ghost use Rattle.texts.specs.Laws.{ReadsBack};

pub fn accepted_texts_have_the_form()
    ensures { AcceptedTexts }
{}

pub fn written_texts_read_back()
    ensures { ReadsBack }
{}

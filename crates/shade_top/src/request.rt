//! What the words ask for.

ghost use Rattle.std.specs.Prelude.{◌≡◌};
ghost use Rattle.std.specs.Option.{option_map};
ghost use Rattle.shade_top.specs.Report.{request_seen};
ghost use Rattle.shade_top.specs.Request.{request_of as request_in, texts_of};

/// What the words ask for: a check of a shader, or a run of it by a job, each with the names of its files.
#[derive(Clone, Copy)]
pub enum Request<'a> {
    Check(&'a str),
    Run(&'a str, &'a str),
}

/// The request that the words make, where they fit a form.
pub fn request_of(words: &[String]) -> Option<Request>
    ensures { option_map request_seen result ≡ request_in (texts_of words.now) }
{
    match words {
        [verb, file] if verb.as_str() == "check" => Some(Request::Check(file.as_str())),
        [verb, file, job] if verb.as_str() == "run" => {
            Some(Request::Run(file.as_str(), job.as_str()))
        }
        _ => None,
    }
}

/// What the arguments ask for.
#[derive(Clone, Copy, Debug)]
pub struct Request {
    /// How many clauses may be learnt.
    pub budget: u64,
    /// Whether the values or the derivation are written.
    pub evidence: bool,
}

impl Request {
    /// What these words ask for, of which the first is the program's name; none where they ask for nothing known.
    pub fn of(words: &[String]) -> Option<Request> {
        let mut request = Request {
            budget: u64::MAX,
            evidence: false,
        };
        let mut number_next = false;
        for word in words.iter().skip(1) {
            if number_next {
                request.budget = word.parse::<u64>().ok()?;
                number_next = false;
            } else if word.as_str() == "--budget" {
                number_next = true;
            } else if word.as_str() == "--evidence" {
                request.evidence = true;
            } else {
                return None;
            }
        }
        if number_next { None } else { Some(request) }
    }
}

//! Laws of language matching: what follows from the definitions alone, over every table. Their functions do nothing.
ghost use Rattle.std.specs.Prelude.{◌≡◌, ◌↔◌, ◌+◌, ◌<◌, ◌≤◌, ℕ, Bool, true, false, List, codes, length, Option, Some, IsSome, IsSomeAnd};
ghost use Rattle.std.specs.List.{slice_get};
ghost use Rattle.std.specs.Option.{option_map};
ghost use Rattle.icu_locale.specs.Negotiation.{IsMatch};
ghost use Rattle.icu_provider.specs.declared.data_locale.DataLocale.{DataLocale};
ghost use Rattle.icu_locale_matching.specs.Distance.{distance, favored, TellsApart, AgreeAt};
ghost use Rattle.icu_locale_matching.specs.Nearest.{Matching, may_of, Question, question, AgreeOn, with_matching, IsNearest, ServesFirst, IsSpelledFirst, IsFormedFirst, IsAmong, IsPart, IsNoFarther, without_place, moved_to, ScriptsAreFar, KeepsScript, demotion_at, form_of};
ghost use Rattle.icu_locale_matching.specs.Resolved.{is_varied, resolved};
ghost use Rattle.icu_locale_extensions.specs.Built.{with_id};
ghost use Rattle.icu_locale_extensions.specs.declared.identifier.LocaleIdentifier.{LocaleIdentifier};
ghost use Rattle.icu_locale_matching.specs.Service.{Service, IsChoice, IsServed, IsServedBy, IsNearestTo, IsRefusedIn, IsWantedIn, LetsServe, IsNear, IsPlain, IsCanonicalAt, IsUnread, AreAmong, with_available, covers, first_place, place_of};
ghost use Rattle.icu_locale_matching.specs.declared.limits.FavorSubtag.{FavorSubtag};
ghost use Rattle.icu_locale_matching.specs.declared.limits.FavorSubtag.TheVariants.{Language};
ghost use Rattle.icu_locale_matching.specs.declared.matcher.Match.{Match};
ghost use Rattle.icu_locale_core.specs.declared.langid.LanguageIdentifier.{LanguageIdentifier};
ghost use Rattle.icu_provider.specs.declared.matching.LanguageMatching.{LanguageMatching};

/// Where each rule has a distance above 0, and each macro region stands for some region, only equal forms have the
/// distance 0.
#[tactic(auto, using(crate::proofs::Apart::distance_zero))]
pub fn only_equal_forms_have_no_distance()
    ensures { (t : LanguageMatching) (d s : DataLocale) → TellsApart t
        → (distance t d s ≡ 0) ↔ (d ≡ s) }
{}

/// A distance depends on the rules of the desired language alone, on the distances where no rule fits, and on the macro
/// regions.
#[tactic(auto, using(crate::proofs::Apart::distance_agrees))]
pub fn other_languages_do_not_count()
    ensures { (t u : LanguageMatching) (d s : DataLocale) → AgreeAt d.language t u
        → distance t d s ≡ distance u d s }
{}

/// Where languages are favored, the match rules count as they are, and a matcher is asked over those.
pub fn favor_of_languages_changes_nothing()
    ensures rules { (t : LanguageMatching) → favored Language t ≡ t }
    ensures question { (m : Matching) (requests : List LanguageIdentifier) (may : ℕ → Bool)
        → m.limits.favor ≡ Language → (question m requests may).matching ≡ m.matching }
{}

/// What is favored brings nothing farther, and within a language nothing nearer.
pub fn what_is_favored_is_no_farther()
    ensures farther { (favor : FavorSubtag) (t : LanguageMatching) (d s : DataLocale)
        → distance (favored favor t) d s ≤ distance t d s }
    ensures within { (favor : FavorSubtag) (t : LanguageMatching) (d s : DataLocale)
        → d.language ≡ s.language → distance (favored favor t) d s ≡ distance t d s }
{}

/// A question has one answer.
pub fn the_nearest_is_one()
    ensures { (q : Question) (a b : Option Match) → IsNearest q a → IsNearest q b → a ≡ b }
{}

/// What is served is nearer than the threshold, the demotion of its request aside.
#[tactic(auto, using(crate::proofs::Serving::served_below))]
pub fn what_is_served_is_below_the_threshold()
    ensures { (q : Question) (m : Match) → IsNearest q (Some m)
        → m.cost < q.limits.threshold + demotion_at q.limits.demotion m.request }
{}

/// What is near enough to some request and may be served is never lost: something is served, however many requests come
/// before. What is available in a request's own spelling is near enough to it.
pub fn what_is_near_is_not_lost()
    ensures near { (q : Question) (i j : ℕ) (request identifier : LanguageIdentifier)
        (result : Option Match) → slice_get q.requests i ≡ Some request
        → slice_get q.available j ≡ Some identifier → q.may j ≡ true
        → distance q.matching (form_of q.likely request) (form_of q.likely identifier)
        < q.limits.threshold → IsNearest q result → IsSome result }
    ensures spelled { (q : Question) (i j : ℕ) (request : LanguageIdentifier)
        (result : Option Match) → 0 < q.limits.threshold
        → slice_get q.requests i ≡ Some request → slice_get q.available j ≡ Some request
        → q.may j ≡ true → IsNearest q result → IsSome result }
    ensures chosen { (m : Matching) (requests : List LanguageIdentifier) (may : List Bool)
        (any : Bool) (i j : ℕ) (request : LanguageIdentifier) (result : Option ℕ)
        → 0 < m.limits.threshold → slice_get requests i ≡ Some request
        → slice_get m.available j ≡ Some request → may_of may j ≡ true
        → IsChoice m requests may any result → IsSome result }
{}

/// Where a negotiator meets the first request by an identifier that may be served, a matcher serves it at no
/// distance, by an identifier with the same maximal form, variants aside.
pub fn what_negotiates_is_served()
    ensures { (q : Question) (j : ℕ) (result : Option Match) → TellsApart q.matching
        → 0 < q.limits.threshold → IsMatch q.likely q.requests q.available 0 j
        → q.may j ≡ true → IsNearest q result → IsSomeAnd result (ServesFirst q) }
{}

/// Where the first request is available in its own spelling and may be served, its first place is served, at no
/// distance: over every table.
pub fn what_is_spelled_as_asked_is_served()
    ensures { (q : Question) (j : ℕ) (result : Option Match) → 0 < q.limits.threshold
        → IsSpelledFirst q j → IsNearest q result
        → result ≡ Some (record { request = 0; available = j; cost = 0 }) }
{}

/// Where each rule has a distance above 0, and the first request is not available in its own spelling, the first place of
/// its maximal form with its variants is served, at no distance.
pub fn what_means_as_asked_is_served()
    ensures { (q : Question) (j : ℕ) (result : Option Match) → TellsApart q.matching
        → 0 < q.limits.threshold → IsFormedFirst q j → IsNearest q result
        → result ≡ Some (record { request = 0; available = j; cost = 0 }) }
{}

/// What is added to what is available only brings the answer nearer: the cost is no greater, and where it is the same, the
/// request is no later.
pub fn what_is_added_is_no_farther()
    ensures { (p q : Question) (m : Match) (result : Option Match)
        → IsAmong p q → IsNearest p (Some m) → IsNearest q result
        → IsSomeAnd result (IsNoFarther m) }
{}

/// In whatever order identifiers are available, and however often, the same request is served, at the same cost.
pub fn the_order_of_what_is_available_does_not_count()
    ensures nearest { (p q : Question) (a b : Option Match) → IsAmong p q → IsAmong q p
        → IsNearest p a → IsNearest q b
        → option_map without_place a ≡ option_map without_place b }
    ensures requests { (s : Service) (others requests : List LanguageIdentifier)
        (a b : Option Match) → AreAmong s.available others → AreAmong others s.available
        → IsNearestTo s requests a → IsNearestTo (with_available s others) requests b
        → option_map without_place a ≡ option_map without_place b }
    ensures header { (s : Service) (others : List LanguageIdentifier) (header : List ℕ)
        (a b : Option ℕ) (found other : Option Match) → AreAmong s.available others
        → AreAmong others s.available → IsServedBy s header a found
        → IsServedBy (with_available s others) header b other
        → option_map without_place found ≡ option_map without_place other }
{
    icu_locale_extensions::laws::spelled_once_by();
}

/// What is not served may be taken away: the same is served, at its new place.
pub fn what_is_not_served_may_be_taken_away()
    ensures { (p q : Question) (f : ℕ → ℕ) (k : ℕ) (x : LanguageIdentifier) (m : Match)
        → IsPart p q f → slice_get p.available k ≡ Some x → p.may k ≡ true
        → m.available ≡ f k → IsNearest q (Some m) → IsNearest p (Some (moved_to k m)) }
{}

/// The answer depends on the rules of the languages that are asked alone, on the paradigm locales, on the macro
/// regions and on the distances where no rule fits.
pub fn other_rules_do_not_count()
    ensures { (q : Question) (u : LanguageMatching) (result : Option Match) → AgreeOn q u
        → IsNearest q result → IsNearest (with_matching q u) result }
{}

/// What is served may be served.
#[tactic(auto, using(crate::proofs::Serving::served_may))]
pub fn what_is_served_may_be()
    ensures { (q : Question) (m : Match) → IsNearest q (Some m) → q.may m.available ≡ true }
{}

/// Where the threshold is at most the distance of two scripts, what is served has the script of its request.
pub fn what_is_served_keeps_the_script()
    ensures { (q : Question) (m : Match) → ScriptsAreFar q → IsNearest q (Some m)
        → KeepsScript q m }
{}

/// What is served for a header may be served: no refused range covers it.
pub fn what_is_chosen_may_be()
    ensures { (m : Matching) (requests : List LanguageIdentifier) (may : List Bool) (any : Bool)
        (place : ℕ) → IsChoice m requests may any (Some place) → may_of may place ≡ true }
{}

/// An element of weight 0 excludes: what its range covers is not served.
pub fn what_is_refused_is_not_served()
    ensures { (s : Service) (header : List ℕ) (place : ℕ) (range y : LanguageIdentifier)
        → IsRefusedIn s header range → IsCanonicalAt s place y
        → IsServed s header (Some place) → covers range y ≡ false }
{
    icu_locale_extensions::laws::spelled_once_by();
}

/// An element that cannot be read changes nothing, nor does an empty one.
pub fn what_cannot_be_read_changes_nothing()
    ensures { (s : Service) (more fewer : List ℕ) (result : Option ℕ) → IsUnread more fewer
        → (IsServed s more result) ↔ (IsServed s fewer result) }
{}

/// What is near to a range of a header that is wanted is not lost: something is served, if no refused range covers what
/// is near, and a wanted one does, where `*` is refused.
pub fn what_is_near_to_a_header_is_not_lost()
    ensures { (s : Service) (header : List ℕ) (place : ℕ) (range y : LanguageIdentifier)
        (result : Option ℕ) → IsWantedIn s header range → IsCanonicalAt s place y
        → LetsServe s header y → IsNear s range y → IsServed s header result → IsSome result }
{
    icu_locale_extensions::laws::spelled_once_by();
}

/// What is added to what is available serves no worse. For a header something is served still, and the nearest of what it
/// lets be served costs no more; so does the nearest for requests.
pub fn what_is_added_serves_no_worse()
    ensures served { (s : Service) (more : List LanguageIdentifier) (header : List ℕ) (place : ℕ)
        (result : Option ℕ) → AreAmong s.available more → IsServed s header (Some place)
        → IsServed (with_available s more) header result → IsSome result }
    ensures header { (s : Service) (more : List LanguageIdentifier) (header : List ℕ)
        (a b : Option ℕ) (m : Match) (found : Option Match) → AreAmong s.available more
        → IsServedBy s header a (Some m) → IsServedBy (with_available s more) header b found
        → IsSomeAnd found (IsNoFarther m) }
    ensures requests { (s : Service) (more requests : List LanguageIdentifier) (m : Match)
        (result : Option Match) → AreAmong s.available more → IsNearestTo s requests (Some m)
        → IsNearestTo (with_available s more) requests result → IsSomeAnd result (IsNoFarther m) }
{
    icu_locale_extensions::laws::spelled_once_by();
}

/// A header of ranges without extensions, in falling weight, none refused, is served what is nearest for them as requests.
pub fn a_plain_header_asks_for_the_nearest()
    ensures { (s : Service) (header : List ℕ) (requests : List LanguageIdentifier)
        (result : Option ℕ) (found : Option Match) → IsPlain header requests
        → IsServed s header result → IsNearestTo s requests found → result ≡ place_of found }
{
    icu_locale_extensions::laws::spelled_once_by();
    icu_locale_extensions::laws::refusals_are_faults();
}

/// `*` alone has the first served, if there is one.
pub fn any_alone_serves_the_first()
    ensures { (s : Service) (result : Option ℕ) → IsServed s (codes "*") result
        → result ≡ first_place s.available }
{
    icu_locale_extensions::laws::refusals_are_faults();
}

/// What is served for a header is one.
pub fn what_is_served_is_one()
    ensures { (s : Service) (header : List ℕ) (a b : Option ℕ) → IsServed s header a
        → IsServed s header b → a ≡ b }
{
    icu_locale_extensions::laws::spelled_once_by();
}

/// The nearest for requests is one.
pub fn the_nearest_to_requests_is_one()
    ensures { (s : Service) (requests : List LanguageIdentifier) (a b : Option Match)
        → IsNearestTo s requests a → IsNearestTo s requests b → a ≡ b }
{}

/// What is served for a header, or for requests, is available, and the request that it serves is one of them.
pub fn what_is_served_is_available()
    ensures header { (s : Service) (header : List ℕ) (place : ℕ)
        → IsServed s header (Some place) → place < length s.available }
    ensures requests { (s : Service) (requests : List LanguageIdentifier) (m : Match)
        → IsNearestTo s requests (Some m) → m.available < length s.available }
    ensures asked { (s : Service) (requests : List LanguageIdentifier) (m : Match)
        → IsNearestTo s requests (Some m) → m.request < length requests }
{}

/// What is served is resolved to a locale with its own language and script, and with the region, the variants and the
/// extensions of what was wanted, where there are such. To resolve again gives the same. What is served for itself is
/// itself.
pub fn what_is_resolved_keeps_both()
    ensures language { (served : LanguageIdentifier) (wanted : LocaleIdentifier)
        → (resolved served wanted).locale.id.language ≡ served.language }
    ensures script { (served : LanguageIdentifier) (wanted : LocaleIdentifier)
        → (resolved served wanted).locale.id.script ≡ served.script }
    ensures region { (served : LanguageIdentifier) (wanted : LocaleIdentifier)
        → IsSome wanted.locale.id.region
        → (resolved served wanted).locale.id.region ≡ wanted.locale.id.region }
    ensures variants { (served : LanguageIdentifier) (wanted : LocaleIdentifier)
        → is_varied wanted.locale.id ≡ true
        → (resolved served wanted).locale.id.variants ≡ wanted.locale.id.variants }
    ensures extensions { (served : LanguageIdentifier) (wanted : LocaleIdentifier)
        → with_id (resolved served wanted) wanted.locale.id ≡ wanted }
    ensures again { (served : LanguageIdentifier) (wanted : LocaleIdentifier)
        → resolved served (resolved served wanted) ≡ resolved served wanted }
    ensures itself { (wanted : LocaleIdentifier) → resolved wanted.locale.id wanted ≡ wanted }
{}

//! Laws of the definitions: facts about codewords and the key equation alone, whatever code writes or reads them.

ghost use Rattle.dm_code.specs.CodewordLaws.{CodewordsLieApart, CloseCodewordsAreOne, NearCodewordIsOne};
ghost use Rattle.dm_code.specs.CodewordLaws.{NearCodewordIsThereOrNot, FrontDeterminesChecks, ChecksAreThere};
ghost use Rattle.dm_code.specs.CodewordLaws.{CodewordsAreBytes, CodewordsHaveNoSyndromes};
ghost use Rattle.dm_code.specs.Erased.{NearButIsOne, NearButIsThereOrNot, NearButNoneIsNear};
ghost use Rattle.dm_code.specs.KeyEquationLaws.{PairsAreMultiples, LeastPairIsOne, ExactLeastPairIsOne};
ghost use Rattle.dm_code.specs.KeyEquationLaws.{LeastPairIsThere};

/// The distance law: two different codewords of k checks and one length of at most 255 differ in at least k + 1 places.
/// So two that differ in at most k places are one.
pub fn codewords_lie_apart()
    ensures apart { CodewordsLieApart }
    ensures one { CloseCodewordsAreOne }
{}

/// At most one codeword is near a word of at most 255 numbers: since 2 (k / 2) is at most k, two that are would be too
/// close to one another.
pub fn near_codeword_is_one()
    ensures { NearCodewordIsOne }
{}

/// Some codeword is near a word of more than k and at most 255 numbers, or none is: so the word has its codeword, or is
/// beyond the limit.
pub fn near_codeword_is_there_or_not()
    ensures { NearCodewordIsThereOrNot }
{}

/// The front of a codeword of k checks, its data codewords, determines its last k codewords.
pub fn front_determines_checks()
    ensures { FrontDeterminesChecks }
{}

/// Each list of bytes is the front of a codeword of k checks, where k is below 255 and both together are at most 255.
pub fn checks_are_there()
    ensures { ChecksAreThere }
{}

/// Which lists are codewords of k checks: they are lists of bytes, and a list of more than k and at most 255 bytes is
/// one exactly where its values at 2^1 to 2^k are all 0.
pub fn codewords_have_no_syndromes()
    ensures bytes { CodewordsAreBytes }
    ensures syndromes { CodewordsHaveNoSyndromes }
{}

/// With 2 t at most the number of syndromes, every pair of the key equation is a multiple of the least pair: it is
/// (q L, q W), where (L, W) is the least pair and q(0) = 1.
pub fn pairs_are_multiples()
    ensures { PairsAreMultiples }
{}

/// With 2 t at most the number of syndromes, two least pairs are equal as polynomials.
pub fn least_pair_is_one()
    ensures { LeastPairIsOne }
{}

/// With 2 t at most the number of syndromes, two least pairs whose lists have no number too many are the same lists:
/// what [`crate::Quick`] gives is determined, list by list.
pub fn exact_least_pair_is_one()
    ensures { ExactLeastPairIsOne }
{}

/// Where there is a pair of the key equation, there is a least pair.
pub fn least_pair_is_there()
    ensures { LeastPairIsThere }
{}

/// Some codeword is near to a word of more than k and at most 255 numbers but for erased places, or none is: so the
/// word is restored, or is beyond the limit.
pub fn near_but_is_there_or_not()
    ensures { NearButIsThereOrNot }
{}

/// At most one codeword is near to a word of at most 255 bytes but for erased places, and with none erased it is the
/// one that is near to the word.
pub fn near_but_is_one()
    ensures one { NearButIsOne }
    ensures none { NearButNoneIsNear }
{}

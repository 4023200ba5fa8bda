//! Laws of MTU discovery that no call states.
ghost use Rattle.std.specs.Prelude.{◌≡◌, ◌≤◌, ◌<◌, ℕ, List, Option, Some, None, true};
ghost use Rattle.recovery_base.specs.Units.{u16_limit};
ghost use Rattle.recovery_mtud.specs.BurstRuns.{AreFatesApart, AreFourStanding, AreFourUnanswered};
ghost use Rattle.recovery_mtud.specs.Discovery.{Discovery, IsDiscoverySound, discovery_made, poll_of, reports};
ghost use Rattle.recovery_mtud.specs.DiscoveryLog.{MtuCall, discovery_after, discovery_by, mtu_after, ArePositiveMtuCalls};
ghost use Rattle.recovery_mtud.specs.MtuEntries.{IsFreshDiscovery, entries_by, search_settings};
ghost use Rattle.recovery_mtud.specs.SearchRuns.{UsesFewProbes, AreLimitsOutside, EndsNearBest, ProbesInSearch};
ghost use Rattle.recovery_mtud.specs.declared.config.MtuDiscoveryConfig.{MtuDiscoveryConfig};
ghost use Rattle.recovery_mtud.specs.Search.{smallest_change};

/// Proves that the MTU in use stays above zero, and at most four bursts are stored, if all sizes reported are above
/// zero.
#[tactic(auto, using(crate::proofs::DiscoveryLaws::discovery_by_sound))]
pub fn discovery_stays_sound()
    ensures { (made : Discovery) → IsDiscoverySound made → (calls : List MtuCall)
        → ArePositiveMtuCalls calls → IsDiscoverySound (discovery_by made calls) }
{}

/// Proves what changes the MTU in use: an acknowledged probe, the peer's limit, the report of a black hole, an MTU that
/// was found elsewhere, or a reset, and nothing else.
#[tactic(auto, using(crate::proofs::DiscoveryLaws::discovery_after_mtu))]
pub fn mtu_changes()
    ensures { (call : MtuCall) (old : Discovery)
        → (discovery_after call old).mtu ≡ mtu_after call old }
{}

/// Proves that [`MtuDiscovery::new`] and [`MtuDiscovery::disabled`] return a fresh discovery that searches by the
/// settings passed. The laws below start from there.
///
/// [`MtuDiscovery::new`]: crate::mtud::MtuDiscovery::new
/// [`MtuDiscovery::disabled`]: crate::mtud::MtuDiscovery::disabled
#[tactic(auto, using(crate::proofs::MtuEntryLaws::discovery_made_untold, crate::proofs::MtuEntryLaws::made_settings))]
pub fn discoveries_begin_untold()
    ensures untold { (mtu min_mtu : ℕ) (limit : Option ℕ) (searched : Option MtuDiscoveryConfig)
        → IsFreshDiscovery (discovery_made mtu min_mtu limit searched) }
    ensures settings { (mtu min_mtu : ℕ) (limit : Option ℕ) (searched : Option MtuDiscoveryConfig)
        → search_settings (discovery_made mtu min_mtu limit searched) ≡ searched }
{}

/// Proves that after any calls in any order, the search that runs has probed at most 16 sizes with at most 48 probes
/// (RFC 8899, 5.3.2 leaves the search to the implementation).
pub fn searches_take_few()
    ensures { (made : Discovery) (settings : MtuDiscoveryConfig) → IsFreshDiscovery made
        → search_settings made ≡ Some settings → smallest_change ≤ settings.minimum_change
        → settings.upper_bound < u16_limit → (calls : List MtuCall)
        → UsesFewProbes (entries_by made calls) }
{}

/// Proves that a search that a poll ends leaves an MTU that the link carries, less than twice `minimum_change` below
/// the best size. Premise: the link carries exactly the packets up to some size, and the peer states its limit outside
/// searches.
#[tactic(auto, using(crate::proofs::SearchRunLaws::search_ends_near))]
pub fn searches_end_near_the_best()
    ensures { (made : Discovery) (settings : MtuDiscoveryConfig) → IsFreshDiscovery made
        → search_settings made ≡ Some settings → smallest_change ≤ settings.minimum_change
        → settings.upper_bound < u16_limit → (calls : List MtuCall)
        → AreLimitsOutside (entries_by made calls)
        → EndsNearBest made settings (entries_by made calls) }
{}

/// Proves that a probe is sent only in a search, while none is in flight. A disabled discovery sends none.
#[tactic(auto, using(crate::proofs::SearchRunLaws::probes_in_search, crate::proofs::UnsearchedLaws::unsearched))]
pub fn probes_come_in_searches()
    ensures searched { (made : Discovery) (settings : MtuDiscoveryConfig) → IsFreshDiscovery made
        → search_settings made ≡ Some settings → (calls : List MtuCall)
        → ProbesInSearch settings (entries_by made calls) }
    ensures disabled { (made : Discovery) → search_settings made ≡ None
        → (now : ℕ) (calls : List MtuCall) → poll_of now (discovery_by made calls) ≡ None }
{}

/// Proves that a black hole is reported only after four unrefuted bursts of losses, if no number is reported both as
/// acknowledged and as lost. It is reported if four have closed since which no larger packet was acknowledged (RFC
/// 8899, 4.3).
#[tactic(auto, using(crate::proofs::BurstRunLaws::four_stand, crate::proofs::BurstRunLaws::four_report))]
pub fn four_bursts_are_a_black_hole()
    ensures only { (made : Discovery) → IsFreshDiscovery made → (calls : List MtuCall)
        → AreFatesApart (entries_by made calls) → reports (discovery_by made calls) ≡ true
        → AreFourStanding made (entries_by made calls) }
    ensures there { (made : Discovery) → IsFreshDiscovery made → (calls : List MtuCall)
        → AreFourUnanswered made (entries_by made calls)
        → reports (discovery_by made calls) ≡ true }
{}

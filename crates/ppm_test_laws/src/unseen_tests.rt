//! The laws of strands that may race are there to be called.
use crate::clears::{clearing_meets_both, faults_of_clearing_are_invisible};
use ppm_filled::{
    a_racy_read_is_filled, faults_of_filled_paths_are_invisible, filled_paths_are_filled,
    racing_code_is_of_the_code,
};
use ppm_racy::{faults_of_racy_paths_are_invisible, plain_codes_race_as_before};
use ppm_racy_listing::{plain_listings_stay, racy_faults_tell_listings};
use ppm_unseen::{
    calm_writes_stand, each_condition_is_needed, faults_are_invisible,
    racing_claims_are_restartable, runs_are_histories,
};

#[test]
fn the_laws_of_races_are_called() {
    faults_are_invisible::<u8, u8, u8, u8>();
    runs_are_histories::<u8, u8, u8, u8>();
    calm_writes_stand::<u8, u8, u8, u8>();
    each_condition_is_needed();
    racing_claims_are_restartable();
    filled_paths_are_filled();
    faults_of_filled_paths_are_invisible();
    a_racy_read_is_filled();
    racing_code_is_of_the_code();
    plain_codes_race_as_before();
    faults_of_racy_paths_are_invisible();
    plain_listings_stay();
    racy_faults_tell_listings();
    clearing_meets_both();
    faults_of_clearing_are_invisible();
}

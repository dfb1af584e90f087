// What one renter learns of the other: nothing by listings, releases and 17. Nothing runs here.
#![tactic(auto)]
